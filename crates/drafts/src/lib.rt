// Forms entered on trial: a draft of the nodes that they would take, written to free nodes of a space and wiped after
// it. A node of the draft is found by its parent and its token, through a hash table whose slots are the child fields
// of the same free nodes; the entries of one slot are chained by their sibling fields, the latest first.
#![tactic(auto)]

pub mod drafting;
pub mod entries;
pub mod wiping;

// The free nodes that a draft may use: the first of them, and how many.
#[derive(Clone, Copy)]
pub struct Room {
    pub base: usize,
    pub most: usize,
}

// A token below a node of the draft: the node that it leads to, and the nodes in use with it.
#[derive(Clone, Copy)]
pub struct Reached {
    pub node: usize,
    pub used: usize,
}

// A word drafted: the nodes in use with it, and whether it was there before.
#[derive(Clone, Copy)]
pub struct Drafted {
    pub used: usize,
    pub held: bool,
}
