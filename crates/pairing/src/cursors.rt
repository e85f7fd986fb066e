// The pairs of a join one after another: from where it stands to the next pair that matches.
ghost use Rattle.std.specs.Prelude.{◌≡◌, length};
ghost use Rattle.pairing.specs.Pairing.{Gatherable, Gathers, AnswerTakeable, TakesAnswer};
ghost use Rattle.pairing.specs.Pairing.{hand, Throughout, Compared, Finds, WalkStands, WalksOn};
ghost use Rattle.pairing.specs.Counting.{Begun};

use super::{Cursor, Found, Request, Sides, Source, Walk};
use basis::limits::MOST_TOKENS;
use parts::{HAND, matches, put_together, take_in_hand};
use space::Head;
use space::records::{answer_in, node_in};
use trie::End;

// The tokens of the path that ends here, from its leaf up to its root, written to the cells from behind: where they
// start. There are cells enough. That a path is gathered by recursion on the parent is asked of load, and stays so
// there; this is a loop. It judges no node: the sources were judged before the first pass, and no pass changes them.
fn gather_path(space: &[u32], end: End, cells: &mut [u32]) -> usize
    requires { Gatherable space.now end cells.old }
    ensures { Gathers space.now end cells.old cells.new result }
{
    let mut n = end.leaf;
    for at in (0..cells.len()).rev() {
        let y = node_in(space, end.nodes, n);
        if y.parent == n {
            return at + 1;
        }
        cells[at] = y.token;
        n = y.parent;
    }
    0
}

// The answer of a source with this leaf, taken in hand. Its path is gathered in the cells of a form.
fn take_answer(space: &[u32], h: Head, y: Source, leaf: usize, held: &mut [u32], form: &mut [u32])
    requires { AnswerTakeable space.now h y leaf held.old form.old }
    ensures { TakesAnswer space.now h y leaf held.old held.new }
{
    let end = End {
        nodes: h.nodes,
        links: h.answers,
        root: y.root,
        leaf,
    };
    let k = gather_path(space, end, form);
    take_in_hand(&form[k..], y.variables, held, h.edition);
}

// The answers of the second from `from` on, up to one that matches the first's in hand: the answer behind it, and the
// tokens of the form, which is left in form.
fn find_match(
    space: &[u32],
    x: Sides,
    from: usize,
    first: &[u32],
    second: &mut [u32],
    asked: &Request,
    form: &mut [u32],
) -> Found<(usize, usize)>
    requires throughout { Throughout space.now x asked.now.pairs.now asked.now.copies.now }
    requires compared { Compared space.now x from first.now form.old }
    requires room { length second.old ≡ hand }
    ensures { Finds space.now x asked.now.pairs.now asked.now.copies.now from first.now form.new result }
{
    let mut b = from;
    while b != 0 {
        let y = answer_in(space, x.h, b);
        take_answer(space, x.h, x.second, y.leaf, second, form);
        if matches(asked.pairs, first, second) {
            return match put_together(asked.copies, first, second, form, x.h.edition) {
                Some(n) => Found::At((y.next, n)),
                None => Found::TooLong,
            };
        }
        b = y.next;
    }
    Found::End
}

impl Walk {
    // Where a join begins: nothing is in hand.
    pub fn begin(x: Sides) -> Walk
        ensures { Begun x result }
    {
        Walk {
            at: Cursor {
                outer: x.first.first,
                inner: 0,
            },
            first: [0; HAND],
            second: [0; HAND],
            form: [0; MOST_TOKENS],
        }
    }

    // The tokens of the next pair that matches, from where the join stands. Its form is left in the cells of the walk.
    pub fn advance(&mut self, space: &[u32], x: Sides, asked: &Request) -> Found<usize>
        requires throughout { Throughout space.now x asked.now.pairs.now asked.now.copies.now }
        requires stands { WalkStands space.now x self.old }
        ensures { WalksOn space.now x asked.now.pairs.now asked.now.copies.now self.old self.new result }
    {
        loop {
            let found = find_match(
                space,
                x,
                self.at.inner,
                &self.first,
                &mut self.second,
                asked,
                &mut self.form,
            );
            match found {
                Found::At((inner, n)) => {
                    self.at.inner = inner;
                    return Found::At(n);
                }
                Found::TooLong => return Found::TooLong,
                Found::End => {}
            }
            if self.at.outer == 0 {
                return Found::End;
            }
            let y = answer_in(space, x.h, self.at.outer);
            take_answer(space, x.h, x.first, y.leaf, &mut self.first, &mut self.form);
            self.at = Cursor {
                outer: y.next,
                inner: x.second.first,
            };
        }
    }
}
