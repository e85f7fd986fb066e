// A ledger beside the nodes of a space, lent as two arrays: `lasts` (the nodes entered, then the last child of each
// node) and `slots` (a hash table of the children). It is caught up with the nodes, and then a child is found by it, or
// that there is none.
#![tactic(auto)]

pub mod entering;
pub mod searching;
pub mod slots;
pub mod walking;
