// What the forms of a join need: the sums over a search of each, which suffice where they fit, and the exact needs.
ghost use Rattle.std.specs.Prelude.{◌≡◌, ◌+◌, ◌^◌, ◌<◌, ◌≤◌, length};
ghost use Rattle.trie.specs.Index.{search_indexed};
ghost use Rattle.pairing.specs.Counting.{all_forms, added};
ghost use Rattle.pairing.specs.Counting.{JoinReady, CountsForms, ReadyToCount};
ghost use Rattle.pairing.specs.Counting.{EarlierOf, needs_more, NeedsUpTo};

use super::{Found, Needs, Request, Sides, Sums, Walk};
use sides::searches::{meet, search};
use sides::{Earlier, Met};

// The sums with one form more.
#[tactic(auto, unfolding(crate::specs::Counting::one_more))]
fn add(y: Sums, m: Met) -> Sums
    requires { (y.missing + m.missing < 2 ^ 64) × (y.lacking + 1 < 2 ^ 64) }
    ensures { result ≡ added y m }
{
    Sums {
        sound: y.sound && m.sound,
        missing: y.missing + m.missing as u64,
        lacking: y.lacking + u64::from(m.lacking),
    }
}

// The sums over all forms, searched from this answer root on; nothing where one is too long.
pub fn count(space: &[u32], x: Sides, root: usize, asked: &Request) -> Option<Sums>
    requires { JoinReady space.now x asked.now.pairs.now asked.now.copies.now × (root < x.h.nodes) }
    ensures { CountsForms (search_indexed asked.now.index.now x.h.nodes) space.now x root
        asked.now.pairs.now asked.now.copies.now result }
{
    let mut walk = Walk::begin(x);
    let mut sums = Sums {
        sound: true,
        missing: 0,
        lacking: 0,
    };
    loop {
        match walk.advance(space, x, asked) {
            Found::At(n) => {
                let met = search(space, x.h, root, &walk.form[..n], asked.index);
                sums = add(sums, met);
            }
            Found::TooLong => return None,
            Found::End => return Some(sums),
        }
    }
}

// What the form shares with the first `count` forms. It ends early at one that is the same: no other shares more.
fn earlier(space: &[u32], x: Sides, asked: &Request, own: &[u32], count: usize) -> Earlier
    requires ready_to_count { ReadyToCount space.now x asked.now.pairs.now asked.now.copies.now }
    requires count_in_bounds { count ≤ length (all_forms space.now x asked.now.pairs.now asked.now.copies.now) }
    ensures { EarlierOf (all_forms space.now x asked.now.pairs.now asked.now.copies.now) count own.now result }
{
    let mut walk = Walk::begin(x);
    let mut e = Earlier {
        shared: 0,
        held: false,
    };
    for i in 0..count {
        let Found::At(n) = walk.advance(space, x, asked) else {
            return e;
        };
        e = meet(e, &walk.form[..n], own);
        if e.held {
            return e;
        }
    }
    e
}

// The needs with one form of n tokens more.
#[tactic(auto, unfolding(crate::specs::Counting::one_new))]
fn need(y: Needs, m: Met, e: Earlier, n: usize) -> Needs
    requires { (y.nodes + n < 2 ^ 64) × (y.answers + 1 < 2 ^ 64) × (e.shared ≤ n) }
    ensures { result ≡ needs_more y m e n }
{
    Needs {
        nodes: y.nodes + m.missing.min(n - e.shared) as u64,
        answers: y.answers + u64::from(m.lacking && !e.held),
    }
}

// What all forms need, each compared with those before it. It ends early, with what was counted so far, as soon as that
// is more nodes than are free.
pub fn needs(space: &[u32], x: Sides, root: usize, asked: &Request, free: u64) -> Needs
    requires ready_to_count { ReadyToCount space.now x asked.now.pairs.now asked.now.copies.now }
    requires root_lt_nodes { root < x.h.nodes }
    ensures { NeedsUpTo free (search_indexed asked.now.index.now x.h.nodes) space.now x root
        asked.now.pairs.now asked.now.copies.now result }
{
    let mut walk = Walk::begin(x);
    let mut y = Needs {
        nodes: 0,
        answers: 0,
    };
    // A count of the forms so far, which ends with the walk and not at a number that is known.
    let mut i = 0;
    loop {
        let Found::At(n) = walk.advance(space, x, asked) else {
            return y;
        };
        let form = &walk.form[..n];
        let met = search(space, x.h, root, form, asked.index);
        let before = earlier(space, x, asked, form, i);
        y = need(y, met, before, n);
        if free < y.nodes {
            return y;
        }
        i += 1;
    }
}
