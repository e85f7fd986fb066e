// Tries in a space: search, walk, gather, append.
#![tactic(auto)]

pub mod appends;
pub mod ends;
pub mod lookups;
pub mod paths;
pub mod siblings;
pub mod slots;
pub mod walks;

// The child found, or the last sibling, 0 where there is none. Document 01 asks for these three cases by name.
#[derive(Clone, Copy)]
pub enum Search {
    Found(usize),
    Last(usize),
    Damaged,
}

// Whole at a node; or stopped at a node, with its last child and the number of tokens left. Three cases, as those of
// the search: its callers go on from each of the first two.
#[derive(Clone, Copy)]
pub enum Walked {
    Whole(usize),
    Stopped(usize, usize, usize),
    Damaged,
}

// The last node of a path and the root that it is to start from; the nodes of the trie, and the count that its links
// are held to.
#[derive(Clone, Copy)]
pub struct End {
    pub nodes: usize,
    pub links: usize,
    pub root: usize,
    pub leaf: usize,
}
