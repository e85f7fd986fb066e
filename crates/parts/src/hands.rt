// One term of an answer in hand: compared with another, and copied.
ghost use Rattle.std.specs.Prelude.{◌≡◌, eqb};
ghost use Rattle.basis.specs.Choice.{pick};
ghost use Rattle.forms.specs.Compact.{same};
ghost use Rattle.parts.specs.Segments.{Spans, segment, Room, Extends};

use basis::limits::MOST_TOKENS;
use basis::wide;

// The tokens of term x of an answer.
fn tokens_of(held: &[u32], x: usize) -> &[u32]
    requires { Spans held.now x }
    ensures { result.now ≡ segment held.now x }
{
    &held[wide(held[x])..wide(held[x + 1])]
}

// Whether term x of the first answer and term y of the second have the same tokens.
pub fn are_equal(outer: &[u32], x: usize, inner: &[u32], y: usize) -> bool
    requires { Spans outer.now x × Spans inner.now y }
    ensures { result ≡ same (segment outer.now x) (segment inner.now y) }
{
    tokens_of(outer, x) == tokens_of(inner, y)
}

// Copies term x of an answer to place `to` of a form, where it ends within 383 tokens, and gives the place behind it.
fn copy_term(held: &[u32], x: usize, form: &mut [u32], to: usize) -> usize
    requires { Room held.now x form.old to }
    ensures { Extends form.old to (segment held.now x) form.new result }
{
    let tokens = tokens_of(held, x);
    let behind = to + tokens.len();
    if behind <= MOST_TOKENS {
        form[to..behind].copy_from_slice(tokens);
    }
    behind
}

// The same of term x of the answer on a side: 0 the first, else the second. A number, as in the cells of the copies.
pub fn copy_from(
    side: u32,
    x: usize,
    outer: &[u32],
    inner: &[u32],
    form: &mut [u32],
    to: usize,
) -> usize
    requires { Room (pick (eqb side 0) outer.now inner.now) x form.old to }
    ensures { Extends form.old to (segment (pick (eqb side 0) outer.now inner.now) x) form.new result }
{
    if side == 0 {
        return copy_term(outer, x, form, to);
    }
    copy_term(inner, x, form, to)
}
