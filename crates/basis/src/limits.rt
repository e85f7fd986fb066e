// The limits of terms and tables, each once.

// The cells of pair form, of a term or of an answer's terms together.
pub const MOST_CELLS: usize = 256;
// The distinct variables in them.
pub const MOST_VARIABLES: usize = 32;
// The tokens of a stored form: a compact form has as many, a numbered pair form no more than its cells.
pub const MOST_TOKENS: usize = (3 * MOST_CELLS - 1) / 2;
// The records of a kind.
pub const MOST_RECORDS: usize = 1048576;
// The pairs of a join.
pub const MOST_PAIRS: usize = 32;
// The goals of a search for detours.
pub const MOST_GOALS: usize = 6;
// The cells of a listed call, and the symbols that a list is over.
pub const MOST_LISTED: usize = 8;

pub const MOST_SYMBOLS: usize = 16;
