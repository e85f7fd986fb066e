// Words, numbers and cells put into a text as bytes, each behind what was put before it.
ghost use Rattle.std.specs.Prelude.{◌≡◌, ◌&&◌, ◌∷◌, ◌+◌, ◌*◌, ◌-◌, ◌≤◌, ◌<◌, eqb, length, take, drop};
ghost use Rattle.text.specs.Digits.{digit_text, digits, cell_texts, word_and_number, Puts};

use super::{CELL_DIGITS, DECIMAL, FROM_LETTER, FROM_ZERO, HEXADECIMAL};

// Puts bytes at a place of the text and answers the place behind them. There always remains room for a
// byte more.
pub fn put(bytes: &[u8], text: &mut [u8], at: usize) -> usize
    requires { at + length bytes.now < length text.old }
    ensures { Puts at bytes.now text.old result text.new }
{
    let end = at + bytes.len();
    text[at..end].copy_from_slice(bytes);
    end
}

// The same as numbers.
const ZERO: u32 = FROM_ZERO as u32;

const LETTER: u32 = FROM_LETTER as u32;

// The most digits of a cell, in any base from ten on: a 32-bit number is below 10^10.
const MOST_DIGITS: usize = 10;

// A digit's byte. (`char::from_digit` gives an Option of a char, to be opened and narrowed: no plainer.)
fn digit_text(d: u32) -> u8
    requires { d < 16 }
    ensures { result ≡ digit_text d }
{
    if d < DECIMAL {
        (ZERO + d) as u8
    } else {
        (LETTER + d) as u8
    }
}

// Nothing is left of the number, and as many digits are made as the width asks for.
fn all_made(left: u32, made: usize, width: usize) -> bool
    ensures { result ≡ (eqb left 0 && eqb (width - made) 0) }
{
    left == 0 && width <= made
}

// The number's digits, from the lowest on, fill the buffer from its end; the answer is where they start.
fn fill(n: u32, base: u32, width: usize, buffer: &mut [u8; MOST_DIGITS]) -> usize
    requires { (10 ≤ base) × (base ≤ 16) × (width ≤ 10) }
    ensures { (result ≤ 10) × (drop result buffer.new ≡ digits base width n) }
{
    let mut left = n;
    // No `for`: the place is the answer, and both ends of the count may end it.
    let mut i = MOST_DIGITS;
    while !all_made(left, MOST_DIGITS - i, width) {
        i -= 1;
        buffer[i] = digit_text(left % base);
        left /= base;
    }
    i
}

// Puts a space and the number's digits, and answers the place behind them.
pub fn put_field(n: u32, base: u32, width: usize, text: &mut [u8], at: usize) -> usize
    requires { (10 ≤ base) × (base ≤ 16) × (width ≤ 10) × (at + 11 < length text.old) }
    ensures { Puts at (32 ∷ digits base width n) text.old result text.new }
{
    let mut buffer = [0u8; MOST_DIGITS];
    let first = fill(n, base, width, &mut buffer);
    text[at] = b' ';
    put(&buffer[first..], text, at + 1)
}

// Puts a word and the decimal digits of a number behind a space.
pub fn put_numbered(word: &[u8], n: u32, text: &mut [u8], at: usize) -> usize
    requires { at + length word.now + 11 < length text.old }
    ensures { Puts at (word_and_number word.now n) text.old result text.new }
{
    let end = put(word, text, at);
    put_field(n, DECIMAL, 1, text, end)
}

// Puts cells, each as 8 hexadecimal digits behind a space. Two bytes of room are over,
// since put_field asks for room for ten digits.
pub fn put_cells(cells: &[u32], text: &mut [u8], at: usize) -> usize
    requires { at + 9 * length cells.now + 2 < length text.old }
    ensures { Puts at (cell_texts cells.now) text.old result text.new }
{
    let mut end = at;
    for &cell in cells {
        end = put_field(cell, HEXADECIMAL, CELL_DIGITS, text, end);
    }
    end
}
