// Reading and loading: m terms in pair form to the form that an edition stores, and back; compacting and expanding.
#![tactic(auto)]

pub mod buffers;
mod cells;

ghost use Rattle.std.specs.Prelude.{◌≡◌, ◌++◌, ◌+◌, ◌≤◌, ◌<◌, length, take, drop};
ghost use Rattle.convert.specs.Holds.{RoomForForm, RoomForTerms, Reads, ReadsLists, Loads};
ghost use Rattle.convert.specs.Holds.{LoadsCounted, CountsLists};
ghost use Rattle.convert.specs.Holds.{Compacts, CompactsIn, Expands, ExpandsIn};

use basis::limits::{MOST_CELLS, MOST_VARIABLES};
use basis::refusals::Refusal;
use forms::{Form, Place, Unwritten};

// What was loaded: the cells written, and how many variables there are.
#[derive(Clone, Copy)]
pub struct Loaded {
    pub cells: usize,
    pub variables: usize,
}

// Reads the m terms in s, and leaves the form of them that the edition stores at the start of form, and their variables
// in order of rank at the start of vars.
pub fn read_terms(
    s: &[u32],
    m: usize,
    vars: &mut [u32],
    form: &mut [u32],
    edition: u32,
) -> Result<Form, Refusal>
    requires { RoomForForm s.now vars.old form.old }
    ensures { Reads edition m s.now vars.new form.new result }
{
    if forms::stores_pairs(edition) {
        return cells::read_cells(s, m, vars, form, edition);
    }
    read_compact(s, m, vars, form, edition)
}

// The same in compact form.
fn read_compact(
    s: &[u32],
    m: usize,
    vars: &mut [u32],
    form: &mut [u32],
    edition: u32,
) -> Result<Form, Refusal>
    requires { RoomForForm s.now vars.old form.old }
    ensures { ReadsLists edition m s.now vars.new form.new result }
{
    let n = s.len();
    if MOST_CELLS < n {
        return Err(Refusal::Length);
    }
    if n < m {
        return Err(Refusal::Term);
    }
    let Some(read) = pair_reader::terms(s, m, vars, form, edition) else {
        return Err(Refusal::Term);
    };
    if read.at < n {
        return Err(Refusal::Term);
    }
    if MOST_VARIABLES < read.count {
        return Err(Refusal::Variables);
    }
    Ok(Form {
        tokens: read.to,
        variables: read.count,
    })
}

// How far a buffer of so many cells is written: no further than the cells of legal terms.
fn limit_of(room: usize) -> usize
    ensures { (result ≤ room) × (result ≤ 256) × (result < 256 → result ≡ room) }
{
    room.min(MOST_CELLS)
}

// Loads the m terms whose form in the edition is s, and leaves their pair form at the start of cells.
pub fn load_counted(s: &[u32], m: usize, cells: &mut [u32], edition: u32) -> Option<Loaded>
    requires { RoomForTerms s.now cells.old }
    ensures { LoadsCounted edition m s.now cells.new result }
{
    if forms::stores_pairs(edition) {
        return cells::load_cells(s, m, cells, edition);
    }
    load_compact(s, m, cells, edition)
}

// The same of compact form.
fn load_compact(s: &[u32], m: usize, cells: &mut [u32], edition: u32) -> Option<Loaded>
    requires { RoomForTerms s.now cells.old }
    ensures { CountsLists edition m s.now cells.new result }
{
    let limit = limit_of(cells.len());
    if limit < m {
        return None;
    }
    let start = Place {
        at: 0,
        to: 0,
        count: 0,
    };
    let read = form_reader::terms(s, start, m, cells, edition, limit)?;
    if read.at < s.len() || MOST_VARIABLES < read.count {
        return None;
    }
    Some(Loaded {
        cells: read.to,
        variables: read.count,
    })
}

// The same without the count of variables.
pub fn load_terms(s: &[u32], m: usize, cells: &mut [u32], edition: u32) -> Option<usize>
    requires { RoomForTerms s.now cells.old }
    ensures { Loads edition m s.now cells.new result }
{
    let loaded = load_counted(s, m, cells, edition)?;
    Some(loaded.cells)
}

// Copies the first n cells. (With the number beside the slice: its callers would each cut both slices to it and prove
// that they have it.)
pub fn copy(from: &[u32], n: usize, out: &mut [u32])
    requires { (n ≤ length from.now) × (n ≤ length out.old) }
    ensures { out.new ≡ take n from.now ++ drop n out.old }
{
    out[..n].copy_from_slice(&from[..n]);
}

// Compacts with buffers that are long enough for s.
fn compact_with(
    s: &[u32],
    m: usize,
    vars: &mut [u32],
    form: &mut [u32],
    out: &mut [u32],
    edition: u32,
) -> Result<usize, Unwritten>
    requires { RoomForForm s.now vars.old form.old }
    ensures { Compacts edition m s.now out.old result out.new }
{
    let read = read_terms(s, m, vars, form, edition);
    let Ok(size) = read else {
        return Err(Unwritten::Refused(read.unwrap_err()));
    };
    let n = size.tokens;
    if out.len() < n {
        return Err(Unwritten::Short(n));
    }
    copy(form, n, out);
    Ok(n)
}

// Compacts in an edition that there is. Short terms get short buffers.
fn compact_terms(s: &[u32], m: usize, out: &mut [u32], edition: u32) -> Result<usize, Unwritten>
    ensures { Compacts edition m s.now out.old result out.new }
{
    let mut compact = |vars: &mut [u32], form: &mut [u32]| compact_with(
        s, m, vars, form, out, edition,
    );
    buffers::with_form(s.len(), &mut compact)
}

// Compacts the m terms in s into out, in the edition of this number.
pub fn compact(s: &[u32], m: usize, out: &mut [u32], edition: u32) -> Result<usize, Unwritten>
    ensures { CompactsIn edition m s.now out.old result out.new }
{
    if forms::is_converter_edition(edition) {
        return compact_terms(s, m, out, edition);
    }
    Err(Unwritten::Refused(Refusal::Header))
}

// Expands with a buffer that is long enough for s.
fn expand_with(
    s: &[u32],
    m: usize,
    cells: &mut [u32],
    out: &mut [u32],
    edition: u32,
) -> Result<usize, Unwritten>
    requires { RoomForTerms s.now cells.old }
    ensures { Expands edition m s.now out.old result out.new }
{
    let Some(k) = load_terms(s, m, cells, edition) else {
        return Err(Unwritten::Refused(Refusal::Form));
    };
    if out.len() < k {
        return Err(Unwritten::Short(k));
    }
    copy(cells, k, out);
    Ok(k)
}

// Expands in an edition that there is, as a sound header names one. Short forms get short buffers.
pub fn expand_terms(s: &[u32], m: usize, out: &mut [u32], edition: u32) -> Result<usize, Unwritten>
    ensures { Expands edition m s.now out.old result out.new }
{
    let mut expand = |cells: &mut [u32]| expand_with(s, m, cells, out, edition);
    buffers::with_terms(s.len(), &mut expand)
}

// Expands the form of m terms in s into out, in the edition of this number.
pub fn expand(s: &[u32], m: usize, out: &mut [u32], edition: u32) -> Result<usize, Unwritten>
    ensures { ExpandsIn edition m s.now out.old result out.new }
{
    if forms::is_converter_edition(edition) {
        return expand_terms(s, m, out, edition);
    }
    Err(Unwritten::Refused(Refusal::Header))
}
