// Fields of a line, read from left to right.
ghost use Rattle.std.specs.Prelude.{◌≡◌, ◌*◌, ◌≤◌, ◌==◌, length, position};
ghost use Rattle.text.specs.Fields.{digit_of, numeral_first, first_number, only_number, hex_cells};
ghost use Rattle.forms.specs.Compact.{same};
ghost use Rattle.text.specs.Places.{rest_at, FieldEnds, EndsFirst, EndsWithin, ReadsNumeral};
ghost use Rattle.text.specs.Places.{ReadsCells};

use super::{CELL_DIGITS, DECIMAL, FROM_LETTER, FROM_ZERO, HEXADECIMAL, NUMBER_DIGITS, Numeral};

// The value of a digit, 16 for a byte that is none: no digit in any base, so one test refuses it and a digit of another
// base (the definition `digit_of`).
fn digit_of(b: u8) -> u32
    ensures { result ≡ digit_of b }
{
    match b {
        b'0'..=b'9' => u32::from(b - FROM_ZERO),
        b'a'..=b'f' => u32::from(b - FROM_LETTER),
        _ => HEXADECIMAL,
    }
}

// Where the first space is.
fn first_space(line: &[u8]) -> Option<usize>
    ensures { result ≡ position (λ b. b == 32) line.now }
{
    line.iter().position(|b| *b == b' ')
}

// Where the line's first field ends.
pub fn first_end(line: &[u8]) -> usize
    ensures { EndsFirst line.now result }
{
    first_space(line).unwrap_or(line.len())
}

// The same, if that is within so many bytes: a longer field is not gone through.
fn end_within(line: &[u8], most: usize) -> Option<usize>
    requires { most ≤ 8 }
    ensures { EndsWithin line.now most result }
{
    let seen = &line[..line.len().min(most + 1)];
    let n = first_end(seen);
    if most < n {
        return None;
    }
    Some(n)
}

// The numeral in the field behind a place that ends one. A value of at most 8 digits fits a cell.
fn read_numeral(line: &[u8], at: usize, base: u32, least: usize, most: usize) -> Option<Numeral>
    requires { FieldEnds line.now at × (base ≤ 16) × (most ≤ 8) }
    ensures { ReadsNumeral line.now at least (numeral_first base least most (rest_at line.now at)) result }
{
    if line.len() <= at {
        return None;
    }
    let rest = &line[at + 1..];
    let n = end_within(rest, most)?;
    let digits = &rest[..n];
    if n < least {
        return None;
    }
    let mut value = 0;
    for &b in digits {
        let d = digit_of(b);
        if base <= d {
            return None;
        }
        value = base * value + d;
    }
    Some(Numeral {
        value,
        end: at + 1 + n,
    })
}

// The number in the first field behind a place.
pub fn first_number(line: &[u8], at: usize) -> Option<Numeral>
    requires { FieldEnds line.now at }
    ensures { ReadsNumeral line.now at 1 (first_number (rest_at line.now at)) result }
{
    read_numeral(line, at, DECIMAL, 1, NUMBER_DIGITS)
}

// The number in the only field behind a place.
pub fn only_number(line: &[u8], at: usize) -> Option<Numeral>
    requires { FieldEnds line.now at }
    ensures { ReadsNumeral line.now at 1 (only_number (rest_at line.now at)) result }
{
    let read = first_number(line, at)?;
    if read.end < line.len() {
        return None;
    }
    Some(read)
}

// The cells in the fields behind a place, each 9 bytes with its space.
pub fn read_cells(line: &[u8], at: usize, cells: &mut [u32]) -> Option<usize>
    requires { FieldEnds line.now at × (length line.now ≤ 9 * length cells.old) }
    ensures { ReadsCells (hex_cells (rest_at line.now at)) result cells.new }
{
    // No `for`: each turn steps over a whole field.
    let mut n = 0;
    let mut i = at;
    while i < line.len() {
        let read = read_numeral(line, i, HEXADECIMAL, CELL_DIGITS, CELL_DIGITS)?;
        cells[n] = read.value;
        n += 1;
        i = read.end;
    }
    Some(n)
}

// Are the bytes those of a fixed word?
pub fn is_word(bytes: &[u8], word: &[u8]) -> bool
    ensures { result ≡ same bytes.now word.now }
{
    bytes == word
}
