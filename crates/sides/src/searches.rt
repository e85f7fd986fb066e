// The search of one form among the answers to a subgoal, and what two forms share.
ghost use Rattle.std.specs.Prelude.{◌≡◌, ◌≤◌};
ghost use Rattle.plain.specs.Words.{common};
ghost use Rattle.space.specs.Sound.{Bounds};
ghost use Rattle.trie.specs.Index.{search_indexed};
ghost use Rattle.store.specs.Clauses.{view_in, RootIn};
ghost use Rattle.sides.specs.Searches.{whole_sound, Searched, all_shared, MeetsOneMore};

use super::{Earlier, Met};
use space::Head;
use space::records::{node_in, read_answer};
use trie::Walked;
use trie::walks::walk_tokens;

// A form of n tokens was found whole at a leaf whose link is a: that answer ends there, or the form is empty and new.
fn whole_sound(space: &[u32], h: Head, n: usize, leaf: usize, a: usize) -> bool
    requires { Bounds space.now h × (a ≤ h.answers) }
    ensures { result ≡ whole_sound (view_in space.now h) n leaf a }
{
    if a == 0 {
        return n == 0;
    }
    let Some(y) = read_answer(space, h, a) else {
        return false;
    };
    y.leaf == leaf
}

// The search from an answer root on, in a space as it was when the call began.
// Of cells and header and no Table: pairing keeps the header with its sources, and would build one for each form.
pub fn search(space: &[u32], h: Head, root: usize, tokens: &[u32], index: &[u32]) -> Met
    requires { RootIn space.now h root }
    ensures { Searched (search_indexed index.now h.nodes) space.now h root tokens.now result }
{
    match walk_tokens(space, h.nodes, h.answers, root, tokens, index, h.nodes) {
        Walked::Whole(leaf) => {
            let y = node_in(space, h.nodes, leaf);
            Met {
                sound: whole_sound(space, h, tokens.len(), leaf, y.link),
                lacking: y.link == 0,
                missing: 0,
            }
        }
        Walked::Stopped(_, _, left) => Met {
            sound: true,
            lacking: true,
            missing: left,
        },
        Walked::Damaged => Met {
            sound: false,
            lacking: true,
            missing: 0,
        },
    }
}

// How many leading tokens two forms share.
pub fn common(a: &[u32], b: &[u32]) -> usize
    ensures { result ≡ common a.now b.now }
{
    let n = a.len().min(b.len());
    for i in 0..n {
        if a[i] != b[i] {
            return i;
        }
    }
    n
}

// Are k tokens all of n, and all of m?
fn all_shared(k: usize, n: usize, m: usize) -> bool
    ensures { result ≡ all_shared k n m }
{
    k == n && n == m
}

// What the form shares with those before it, with one of them more.
pub fn meet(e: Earlier, other: &[u32], form: &[u32]) -> Earlier
    ensures { MeetsOneMore e other.now form.now result }
{
    let k = common(other, form);
    Earlier {
        shared: k.max(e.shared),
        held: all_shared(k, other.len(), form.len()) || e.held,
    }
}
