// Bytes of a line: lines cut from chunks, fields read, digits written.
#![tactic(auto)]

pub mod digits;
pub mod fields;
pub mod lines;

// The base of numbers.
pub const DECIMAL: u32 = 10;

// The base of cells.
pub const HEXADECIMAL: u32 = 16;
// The byte of a digit below ten, and of a higher one, less the digit.
pub const FROM_ZERO: u8 = b'0';

pub const FROM_LETTER: u8 = b'a' - 10;

// A number that is read has at most so many digits.
pub const NUMBER_DIGITS: usize = 7;

// A cell has exactly so many.
pub const CELL_DIGITS: usize = 8;

// A number and the place at which its field ends.
#[derive(Clone, Copy)]
pub struct Numeral {
    pub value: u32,
    pub end: usize,
}

// A line that has ended: the place behind its newline, and how many bytes are kept of it. Or the chunk has ended
// before the line: how many are kept of it so far. No Option: both cases hold how many bytes are kept.
#[derive(Clone, Copy)]
pub enum Taking {
    Line(usize, usize),
    More(usize),
}
