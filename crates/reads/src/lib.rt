// Next, load, instance and counts: the calls that only read the space.
#![tactic(auto)]

ghost use Rattle.std.specs.Prelude.{◌≡◌, [], ◌≤◌};
ghost use Rattle.plain.specs.Requests.{next, load, instance, counts, lacks_next};
ghost use Rattle.store.specs.Decisions.{says, state_of, starting, handed, onward};
ghost use Rattle.store.specs.Calls.{Answers};
ghost use Rattle.store.specs.Replies.{said_onward, said_next, said_cells, said_counts};
ghost use Rattle.instances.specs.Leaving.{sized};
ghost use Rattle.store.specs.Clauses.{view_at};
ghost use Rattle.reads.specs.Reading.{decided, Fills};
ghost use Rattle.reads.specs.Pairs.{PairRead};

use basis::refusals::Refusal;
use basis::wide;
use forms::Unwritten;
use path_terms::{instance_paths, load_path};
use space::heading::read_header;
use space::tables::Table;
use space::{Answer, Subgoal};
use store::{Counts, Next, State};
use trie::ends::{answer_end, subgoal_end};

// Nodes, subgoals and answers used.
pub fn counts(space: &[u32]) -> Result<Counts, Refusal>
    ensures { Answers space.now counts (said_counts result) [] space.now }
{
    let h = read_header(space)?;
    Ok(Counts {
        nodes: h.nodes as u32,
        subgoals: h.subgoals as u32,
        answers: h.answers as u32,
    })
}

// What next says of a subgoal of this state where no answer is left. (No TryFrom: the state of a judged record is 0 or
// 1, and the definitions, `state_of`, read every other number as finished.)
fn lacking(state: usize) -> Next
    ensures { said_onward result ≡ lacks_next (state_of state) }
{
    if state == 0 {
        return Next::Lacking(State::Open);
    }
    Next::Lacking(State::Finished)
}

// Answer a, which a record names, is handed out: it is to be the subgoal's. Where there is none, its state is told.
fn hand_out(table: &Table, s: usize, state: usize, a: usize) -> Result<Next, Refusal>
    requires { (a ≤ table.now.head.answers) × (state ≡ ((view_at table.now).subgoal s).state) }
    ensures { says (said_next result) ≡ handed (view_at table.now) s a }
{
    if a == 0 {
        return Ok(lacking(state));
    }
    let y = table.read_answer(a).ok_or(Refusal::Records)?;
    if y.subgoal != s {
        return Err(Refusal::Records);
    }
    Ok(Next::At(a as u32))
}

// From answer a on, or from the subgoal's first answer.
fn go_on(table: &Table, s: usize, a: usize) -> Result<Next, Refusal>
    requires { (1 ≤ s) × (s ≤ table.now.head.subgoals) × (a ≤ table.now.head.answers) }
    ensures { says (said_next result) ≡ onward (view_at table.now) s a }
{
    let g = table.read_subgoal(s).ok_or(Refusal::Records)?;
    if a == 0 {
        return hand_out(table, s, g.state, g.first);
    }
    let y = table.read_answer(a).ok_or(Refusal::Records)?;
    hand_out(table, s, g.state, y.next)
}

// May next start at a? The record of a is taken as it stands.
fn starts(table: &Table, s: usize, a: usize) -> bool
    ensures { result ≡ starting (view_at table.now) s a }
{
    a == 0 || a <= table.head.answers && table.answer(a).subgoal == s
}

// Next, under a sound header.
fn next_in(table: &Table, s: usize, a: usize) -> Result<Next, Refusal>
    ensures { says (said_next result) ≡ decided (next s a) table.now }
{
    if s == 0 || table.head.subgoals < s || !starts(table, s, a) {
        return Err(Refusal::Number);
    }
    go_on(table, s, a)
}

// The subgoal's first answer after a given one, or after none.
pub fn next(space: &[u32], subgoal: u32, after: u32) -> Result<Next, Refusal>
    ensures { Answers space.now (next subgoal after) (said_next result) [] space.now }
{
    let table = Table::open(space)?;
    next_in(&table, wide(subgoal), wide(after))
}

// Answer a and the subgoal that it names, or the refusal.
fn read_pair(table: &Table, a: usize) -> Result<(Answer, Subgoal), Refusal>
    ensures { PairRead table.now a result }
{
    if a == 0 || table.head.answers < a {
        return Err(Refusal::Number);
    }
    let y = table.read_answer(a).ok_or(Refusal::Records)?;
    let g = table.read_subgoal(y.subgoal).ok_or(Refusal::Records)?;
    Ok((y, g))
}

// The answer to a number of cells that were to be written to so much room: 0 is damage, any other one more than they
// are.
fn cells_answer(room: usize, n: usize) -> Result<usize, Unwritten>
    ensures { said_cells result ≡ sized room n }
{
    if n == 0 {
        return Err(Unwritten::Refused(Refusal::Records));
    }
    let cells = n - 1;
    if room < cells {
        return Err(Unwritten::Short(cells));
    }
    Ok(cells)
}

// Load, under a sound header.
fn load_in(table: &Table, a: usize, out: &mut [u32]) -> Result<usize, Unwritten>
    ensures { Fills (decided (load a out.old)) table.now out.old result out.new }
{
    let (y, g) = read_pair(table, a)?;
    let end = answer_end(table.head, g, y);
    let room = out.len();
    let n = load_path(table.cells, end, g.variables, out, table.head.edition);
    cells_answer(room, n)
}

// The terms of an answer in pair form.
pub fn load(space: &[u32], answer: u32, out: &mut [u32]) -> Result<usize, Unwritten>
    ensures { Answers space.now (load answer out.old) (said_cells result) out.new space.now }
{
    let table = Table::open(space)?;
    load_in(&table, wide(answer), out)
}

// Instance, under a sound header.
fn instance_in(table: &Table, a: usize, out: &mut [u32]) -> Result<usize, Unwritten>
    ensures { Fills (decided (instance a out.old)) table.now out.old result out.new }
{
    let (y, g) = read_pair(table, a)?;
    let h = table.head;
    let end = answer_end(h, g, y);
    let under = subgoal_end(h, g);
    let room = out.len();
    let n = instance_paths(table.cells, end, under, g.variables, out, h.edition);
    cells_answer(room, n)
}

// The subgoal of an answer with variable i replaced by the answer's term i, in pair form.
pub fn instance(space: &[u32], answer: u32, out: &mut [u32]) -> Result<usize, Unwritten>
    ensures { Answers space.now (instance answer out.old) (said_cells result) out.new space.now }
{
    let table = Table::open(space)?;
    instance_in(&table, wide(answer), out)
}
