// The instance of a subgoal by an answer. The two forms are lent anew at each call (`&form[..]`), not handed on: a
// slice that is handed on is copied in memory, which took an eighth of the time of a short instance.
#![tactic(auto)]

ghost use Rattle.std.specs.Prelude.{◌≡◌, ◌+◌, ◌-◌, ◌≤◌, length};
ghost use Rattle.convert.specs.Holds.{RoomForTerms};
ghost use Rattle.instances.specs.Leaving.{InstancesOf};
ghost use Rattle.instances.specs.Instances.{
  Placed,
  AllPlaced,
  needed,
  Missing,
  width,
  most_cells,
  TermsTo,
  Noted,
  PartCopied,
  Replaceable,
  Replaces,
  Writable,
  InstanceStands,
};

use basis::limits::MOST_VARIABLES;
use convert::buffers::with_terms;
use forms::{arguments_of, due_after, is_variable, payload_of};

// A term for each variable of the subgoal: where each starts, and the end of the last.
const STARTS: usize = MOST_VARIABLES + 1;

// Notes where each of the first m terms in s starts, and where the last of them ends, which is known. One scan finds
// all of them: begun with m terms due, the next of them starts where one less is due for the first time.
fn note_starts(s: &[u32], m: usize, end: usize, starts: &mut [u32], edition: u32)
    requires { TermsTo edition s.now m end starts.old }
    ensures { Noted edition s.now m starts.old starts.new }
{
    starts[0] = 0;
    let mut at = 0;
    let mut due = m;
    let mut i = 0;
    // A turn for each cell and not for each i, of which a range would need a second loop within the first.
    while i + 1 < m {
        due = due_after(due, arguments_of(s[at], edition));
        at += 1;
        if due + i < m {
            i += 1;
            starts[i] = at as u32;
        }
    }
    starts[m] = end as u32;
}

// How many cells stand for the cell c in the instance.
fn width_of(starts: &[u32], c: u32) -> usize
    requires { Placed most_cells starts.now c }
    ensures { result ≡ width starts.now c }
{
    if is_variable(c) {
        let i = payload_of(c);
        return starts[i + 1] as usize - starts[i] as usize;
    }
    1
}

// How many cells the instance of these cells has.
fn need(cells: &[u32], starts: &[u32]) -> usize
    requires { (length cells.now ≤ most_cells) × AllPlaced most_cells starts.now (length cells.now) cells.now }
    ensures { result ≡ needed starts.now cells.now }
{
    let mut sum = 0;
    for &c in cells {
        sum += width_of(starts, c);
    }
    sum
}

// How many cells the instance of these cells has, if that is more than there is room for. Where each cell could be a
// term as long as all of them, nothing is counted.
fn missing(cells: &[u32], end: usize, starts: &[u32], room: usize) -> Option<usize>
    requires { (end ≤ most_cells) × (length cells.now ≤ most_cells)
        × AllPlaced end starts.now (length cells.now) cells.now }
    ensures { Missing (needed starts.now cells.now) room result }
{
    if cells.len() * (end + 1) <= room {
        return None;
    }
    let k = need(&cells[..], starts);
    if room < k {
        return Some(k);
    }
    None
}

// Copies the cells of s from `start` up to `end` to out, from `to` on; gives the place behind them.
fn copy_part(s: &[u32], start: usize, end: usize, out: &mut [u32], to: usize) -> usize
    requires { (start ≤ end) × (end ≤ length s.now) × (to + (end - start) ≤ length out.old) }
    ensures { PartCopied s.now start end to result out.old out.new }
{
    let next = to + (end - start);
    out[to..next].copy_from_slice(&s[start..end]);
    next
}

// Writes what stands for the cell c from `to` on; gives the place behind it.
fn replace(c: u32, terms: &[u32], starts: &[u32], out: &mut [u32], to: usize) -> usize
    requires { Replaceable terms.now starts.now c to out.old }
    ensures { Replaces terms.now starts.now c to result out.old out.new }
{
    if is_variable(c) {
        let i = payload_of(c);
        return copy_part(terms, starts[i] as usize, starts[i + 1] as usize, out, to);
    }
    out[to] = c;
    to + 1
}

// Writes the instance of these cells; gives how many it has.
fn write(cells: &[u32], terms: &[u32], starts: &[u32], out: &mut [u32]) -> usize
    requires { Writable terms.now starts.now cells.now out.old }
    ensures { InstanceStands terms.now starts.now cells.now result out.old out.new }
{
    let mut to = 0;
    for &c in cells {
        to = replace(c, terms, starts, out, to);
    }
    to
}

// The subgoal's path with the terms of the answer's form for its m variables: one more than its cells, which are
// written where there is room for them; 0 for damage, as what is no legal form. The buffers are long enough for the
// pair forms of the two. A plain number: with an enum a short instance took 1.04 times as long (docs/DECISIONS.md).
fn instance_with(
    path: &[u32],
    form: &[u32],
    m: usize,
    cells: &mut [u32],
    terms: &mut [u32],
    out: &mut [u32],
    edition: u32,
) -> usize
    requires { RoomForTerms path.now cells.old × RoomForTerms form.now terms.old }
    ensures { InstancesOf form.now path.now m edition out.old result out.new }
{
    let Some(end) = convert::load_terms(&form[..], m, terms, edition) else {
        return 0;
    };
    let Some(loaded) = convert::load_counted(&path[..], 1, cells, edition) else {
        return 0;
    };
    if loaded.variables == m {
        let mut starts = [0u32; STARTS];
        note_starts(terms, m, end, &mut starts, edition);
        if let Some(short) = missing(&cells[..loaded.cells], end, &starts, out.len()) {
            return short + 1;
        }
        return write(&cells[..loaded.cells], terms, &starts, out) + 1;
    }
    0
}

// The same with a buffer of its own for the path.
fn instance_beside(
    path: &[u32],
    form: &[u32],
    m: usize,
    terms: &mut [u32],
    out: &mut [u32],
    edition: u32,
) -> usize
    requires { RoomForTerms form.now terms.old }
    ensures { InstancesOf form.now path.now m edition out.old result out.new }
{
    let mut instance = |cells: &mut [u32]|
        requires { RoomForTerms path.now cells.now × RoomForTerms form.now terms.now }
        ensures { InstancesOf form.entry.now path.entry.now m edition out.entry.now result out.exit.now }
    { instance_with(&path[..], &form[..], m, cells, terms, out, edition) };
    with_terms(path.len(), &mut instance)
}

// The same with buffers of its own for both.
pub fn instance_path(path: &[u32], form: &[u32], m: usize, out: &mut [u32], edition: u32) -> usize
    ensures { InstancesOf form.now path.now m edition out.old result out.new }
{
    let mut instance = |terms: &mut [u32]|
        requires { RoomForTerms form.now terms.now }
        ensures { InstancesOf form.entry.now path.entry.now m edition out.entry.now result out.exit.now }
    { instance_beside(&path[..], &form[..], m, terms, out, edition) };
    with_terms(form.len(), &mut instance)
}
