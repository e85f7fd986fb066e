// What the calls on a space answer: each a value, or the refusal. What each decides and writes is defined in specs; the
// code that does it is in the crates above: calling, answering, reads, join, reasons and detours. How many answers a
// join brought that are new, and whether a subgoal was finished, is a number or nothing, and has no type here.
#![tactic(auto)]

use basis::limits::{MOST_GOALS, MOST_VARIABLES};
use basis::refusals::Refusal;

// A subgoal is open or finished.
#[derive(Clone, Copy)]
pub enum State {
    Open,
    Finished,
}

// What call answers: a new subgoal's number, or an old one's with its state. The refusal is a case beside these, as the
// paper's list of forms asks for (document 01). (Whoever puts answers into words may have it by its number alone.)
#[derive(Clone, Copy)]
pub enum CallAnswer<R = Refusal> {
    New(u32),
    Old(u32, State),
    Refused(R),
}

// What answer finds or makes: a new answer, or an old one, by number.
#[derive(Clone, Copy)]
pub enum Entry {
    New(u32),
    Old(u32),
}

// What next finds: the number of the next answer, or the state of the subgoal where none is left, which tells whether
// one may still come.
#[derive(Clone, Copy)]
pub enum Next {
    At(u32),
    Lacking(State),
}

// Why a term is old or new. Old: its subgoal's number, and how many variables it has. New: how many of its leading
// tokens some subgoal shares, and the lowest subgoal that shares them; 0 and 0 where none shares any.
#[derive(Clone, Copy)]
pub enum Reason {
    Old(u32, usize),
    New(u32, u32),
}

// What why answers: the reason, and the variables of an old term in order of rank; how many, the reason says. (An array
// of the most there may be: there is no heap for a Vec.)
#[derive(Clone, Copy)]
pub struct Why {
    pub reason: Reason,
    pub variables: [u32; MOST_VARIABLES],
}

// Nodes, subgoals and answers used.
#[derive(Clone, Copy)]
pub struct Counts {
    pub nodes: u32,
    pub subgoals: u32,
    pub answers: u32,
}

// What a search for detours comes to: the least total found, the choices tried and whether the search ended; or the
// last two where no choice was found.
#[derive(Clone, Copy)]
pub enum Outcome {
    Found(u32, u32, bool),
    Nothing(u32, bool),
}

// What detours answers. Where a total was found the first `count` numbers are those of its answers, in the order of the
// goals. (An array of the most there may be: there is no heap for a Vec.)
#[derive(Clone, Copy)]
pub struct Detour {
    pub outcome: Outcome,
    pub count: usize,
    pub numbers: [u32; MOST_GOALS],
}
