// The pairs of a join: each answer of the first source is taken in hand and compared, term by term, with each answer of
// the second; where the terms that the pairs name are equal, the terms that the copies name are a form of the join.
// Nothing is kept but where the join stands, so its forms are made anew for each pass over them: one that counts what
// they need by a search of each, one that counts exactly where that does not fit, and, in crate join, one that enters
// them.
#![tactic(auto)]

pub mod counting;
pub mod cursors;

use basis::limits::MOST_TOKENS;
use parts::HAND;
use space::Head;

// A source of a join, once its answers are judged.
#[derive(Clone, Copy)]
pub struct Source {
    // The subgoal.
    pub number: usize,
    // The root of its answer trie.
    pub root: usize,
    // The terms of each answer.
    pub variables: usize,
    // Its first answer.
    pub first: usize,
}

// Both sources, under the header as it stands.
#[derive(Clone, Copy)]
pub struct Sides {
    pub h: Head,
    pub first: Source,
    pub second: Source,
}

// Where a join stands: the answer of the first to be taken in hand next, and the answer of the second to be compared
// next with the one in hand; 0 for none, as a chain of answers ends in the cells: `chain_from`.
#[derive(Clone, Copy)]
pub struct Cursor {
    pub outer: usize,
    pub inner: usize,
}

// What a join asks for: the pairs of terms that are to be equal, the terms that its forms are put together from, and
// the index by which they are searched in the target.
#[derive(Clone, Copy)]
pub struct Request<'a> {
    pub pairs: &'a [u32],
    pub copies: &'a [u32],
    pub index: &'a [u32],
}

// A walk over the pairs of a join: where it stands, the answers of both sources that are in hand, and the cells of the
// form that it came to last.
#[derive(Drop)]
pub struct Walk {
    pub at: Cursor,
    pub first: [u32; HAND],
    pub second: [u32; HAND],
    pub form: [u32; MOST_TOKENS],
}

// The next pair that matches, by what is to be known of it; or a joined answer of too many cells; or none.
#[derive(Clone, Copy)]
pub enum Found<T> {
    At(T),
    TooLong,
    End,
}

// What forms need by a search of each: whether no damaged record was met, the tokens that were not found, and how many
// forms were not. `sound` is a flag and not None: 4 for a form behind precedes 9, so the pass goes on (`CountedOf`).
#[derive(Clone, Copy)]
pub struct Sums {
    pub sound: bool,
    pub missing: u64,
    pub lacking: u64,
}

// What they need exactly.
#[derive(Clone, Copy)]
pub struct Needs {
    pub nodes: u64,
    pub answers: u64,
}
