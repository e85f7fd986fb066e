// What a join reads before it writes: the names in its request, the answers of a source, and the search of one form in
// the target.
#![tactic(auto)]

pub mod chains;
pub mod names;
pub mod searches;

use trie::End;

// The answers of a source: a damaged record was met, no form holds a variable, or some form does.
// Three names and no Option of a bool: join's definitions (`whole_answers`, `ground_answers`) go by them.
#[derive(Clone, Copy)]
pub enum Judged {
    Damaged,
    Ground,
    Variable,
}

// One answer of a source, whose record was found sound: the number of the next one, and where its path ends.
#[derive(Clone, Copy)]
pub struct Member {
    pub next: usize,
    pub end: End,
}

// The search of a form among the answers to a subgoal: no damaged record was met, the form is not among them, and how
// many of its tokens were not found.
// `sound` is a flag and not None: pairing's `added` counts on where a damaged record was met.
#[derive(Clone, Copy)]
pub struct Met {
    pub sound: bool,
    pub lacking: bool,
    pub missing: usize,
}

// The most tokens that a form shares with one before it, and whether it is one of those.
#[derive(Clone, Copy)]
pub struct Earlier {
    pub shared: usize,
    pub held: bool,
}
