// Where cells stand: those of the header, and the fields of a record from its first cell on. specs/Layout.antt opens
// with the same as a table. The place of a record is computed in records.rt.

// The header.
pub const EDITION: usize = 0;

pub const NODES_USED: usize = 1;

pub const SUBGOALS_USED: usize = 2;

pub const ANSWERS_USED: usize = 3;

pub const NODE_OFFSET: usize = 4;

pub const SUBGOAL_OFFSET: usize = 5;

pub const ANSWER_OFFSET: usize = 6;

pub const END: usize = 7;
// Its cells; the nodes begin behind them.
pub const HEADER_CELLS: usize = 8;
// The same as the header's node offset says it.
pub const NODES_FROM: u32 = HEADER_CELLS as u32;

// A node, and the cells of one.
pub const TOKEN: usize = 0;

pub const CHILD: usize = 1;

pub const SIBLING: usize = 2;

pub const PARENT: usize = 3;

pub const LINK: usize = 4;

pub const NODE_CELLS: usize = 5;

// A subgoal, and the cells of one.
pub const SUBGOAL_LEAF: usize = 0;

pub const ROOT: usize = 1;

pub const VARIABLES: usize = 2;

pub const STATE: usize = 3;

pub const FIRST: usize = 4;

pub const LAST: usize = 5;

pub const SUBGOAL_CELLS: usize = 6;

// An answer, and the cells of one.
pub const ANSWER_LEAF: usize = 0;

pub const SUBGOAL: usize = 1;

pub const NEXT: usize = 2;

pub const ANSWER_CELLS: usize = 3;
