// Terms of stored forms that hold no variable, compared and put together by their tokens, without being expanded.
//
// An answer in hand is a slice: cells 0 to m hold the places where its m terms begin and where the last ends, and from
// cell HANDED on stand its tokens. Between the places of a term and of the next stand the term's tokens.
#![tactic(auto)]

mod hands;
mod tokens;

ghost use Rattle.parts.specs.Hands.{Takeable, Taken, Comparable, Compares, Copyable, Copies};

use basis::limits::{MOST_CELLS, MOST_TOKENS, MOST_VARIABLES};

// Where the tokens of an answer in hand begin: behind the places of its terms and an end.
pub const HANDED: usize = MOST_VARIABLES + 1;
// The cells of an answer in hand.
pub const HAND: usize = HANDED + MOST_TOKENS;

// Takes a form of m terms in hand. A term ends where no argument is due and no list is open. Within a list nothing is
// due: the term behind its ELIST or EPAIR ends it and counts for it.
pub fn take_in_hand(form: &[u32], m: usize, held: &mut [u32], edition: u32)
    requires { Takeable edition m form.now held.old }
    ensures { Taken edition m form.now held.old held.new }
{
    let mut begun = 0;
    let mut due = 0;
    let mut depth: usize = 0;
    for (at, &c) in form.iter().enumerate() {
        if due == 0 {
            held[begun] = (HANDED + at) as u32;
            begun += 1;
            due = 1;
        }
        held[HANDED + at] = c;
        if c == forms::BLIST {
            depth += 1;
            continue;
        }
        if tokens::closes(c) {
            depth -= 1;
            continue;
        }
        if depth == 0 {
            due = forms::due_after(due, forms::arguments_of(c, edition));
        }
    }
    held[m] = (HANDED + form.len()) as u32;
}

// Whether the terms that each pair names, of the first answer in hand and of the second, are equal.
pub fn matches(pairs: &[u32], outer: &[u32], inner: &[u32]) -> bool
    requires { Comparable pairs.now outer.now inner.now }
    ensures { Compares pairs.now outer.now inner.now result }
{
    for i in (0..pairs.len()).step_by(2) {
        let x = basis::wide(pairs[i]);
        let y = basis::wide(pairs[i + 1]);
        if !hands::are_equal(outer, x, inner, y) {
            return false;
        }
    }
    true
}

// Puts the terms that the copies name, a side and a term each, one after another into form: how many tokens it has, or
// None where the terms are over 256 cells. Forms of more than 383 tokens always are, and those of at most 128 never.
pub fn put_together(
    copies: &[u32],
    outer: &[u32],
    inner: &[u32],
    form: &mut [u32],
    edition: u32,
) -> Option<usize>
    requires { Copyable edition copies.now outer.now inner.now form.old }
    ensures { Copies edition copies.now outer.now inner.now form.old form.new result }
{
    let mut to = 0;
    for i in (0..copies.len()).step_by(2) {
        let x = basis::wide(copies[i + 1]);
        to = hands::copy_from(copies[i], x, outer, inner, form, to);
        if MOST_TOKENS < to {
            return None;
        }
    }
    if MOST_CELLS < 2 * to
        && MOST_CELLS < tokens::cells_of(&form[..to], copies.len() / 2, edition)
    {
        return None;
    }
    Some(to)
}
