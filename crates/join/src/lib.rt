// The join of two finished subgoals as a call: what is judged, in its order; what the forms of the join need, which a
// count on trial or crate pairing tells; and the forms entered, each as a single answer is.
#![tactic(auto)]

pub mod entering;
pub mod joins;
pub mod trial;

use space::Subgoal;

// The numbers of the three subgoals of a join, as they are given.
#[derive(Clone, Copy)]
pub struct Numbers {
    pub first: usize,
    pub second: usize,
    pub target: usize,
}

// The three subgoals of a join, by number and record.
#[derive(Clone, Copy)]
pub struct Parties {
    pub first: usize,
    pub f: Subgoal,
    pub second: usize,
    pub g: Subgoal,
    pub target: usize,
    pub t: Subgoal,
}

// A draft of the forms so far: the nodes in use with it, and how many forms are new.
#[derive(Clone, Copy)]
pub struct Tally {
    pub used: usize,
    pub answers: u64,
}

// Why a count on trial gives no tally: more nodes are needed than the draft may use; or the draft cannot tell.
#[derive(Clone, Copy)]
pub enum Untried {
    Over,
    Unknown,
}
