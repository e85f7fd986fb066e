// What the forms of a join need, counted on trial: a draft of their new nodes is written to free nodes of the space,
// which are zeros, and wiped after the count. So each form is compared with those before it at the cost of a search.
// Where the draft cannot tell, the forms are compared with one another, as crate pairing does.
ghost use Rattle.std.specs.Prelude.{◌≡◌, ◌≤◌};
ghost use Rattle.trie.specs.Index.{search_indexed};
ghost use Rattle.join.specs.Trial.{Formable, TriesForm, Tryable, TriesForms, TriesAll, room_of};
ghost use Rattle.join.specs.Trial.{HeadCounts, Settles, Triable, Settled};

use super::{Tally, Untried};
use basis::refusals::Refusal;
use drafts::Room;
use drafts::drafting::draft;
use drafts::wiping::{is_blank, wipe};
use pairing::{Found, Request, Sides, Walk};
use space::Head;
use space::records::node_in;
use trie::Walked;
use trie::walks::walk_tokens;

// The free nodes that a draft may use.
fn room_of(x: Sides, free: usize) -> Room
    ensures { result ≡ room_of x free }
{
    Room {
        base: x.h.nodes,
        most: free,
    }
}

// One form more on trial, in free nodes of which `free` may be used: the tally with it.
fn try_form(
    space: &mut [u32],
    x: Sides,
    free: usize,
    root: usize,
    tokens: &[u32],
    index: &[u32],
    y: Tally,
) -> Result<Tally, Untried>
    requires { Formable space.old x free root tokens.now y }
    ensures { TriesForm (search_indexed index.now x.h.nodes) x free root space.old y tokens.now space.new result }
{
    match walk_tokens(
        space,
        x.h.nodes,
        x.h.answers,
        root,
        tokens,
        index,
        x.h.nodes,
    ) {
        Walked::Whole(leaf) => {
            if node_in(space, x.h.nodes, leaf).link == 0 {
                Err(Untried::Unknown)
            } else {
                Ok(y)
            }
        }
        Walked::Stopped(parent, _, left) => {
            let below = &tokens[tokens.len() - left..];
            let room = room_of(x, free);
            let drafted = draft(space, room, y.used, parent, below).ok_or(Untried::Over)?;
            Ok(Tally {
                used: drafted.used,
                answers: y.answers + u64::from(!drafted.held),
            })
        }
        Walked::Damaged => Err(Untried::Unknown),
    }
}

// All forms on trial.
fn try_forms(
    space: &mut [u32],
    x: Sides,
    free: usize,
    root: usize,
    asked: &Request,
) -> Result<Tally, Untried>
    requires { Tryable space.old x free root asked.now.pairs.now asked.now.copies.now }
    ensures { TriesForms (search_indexed asked.now.index.now x.h.nodes) space.old x free root
        asked.now.pairs.now asked.now.copies.now space.new result }
{
    let mut walk = Walk::begin(x);
    let mut y = Tally {
        used: x.h.nodes,
        answers: 0,
    };
    loop {
        match walk.advance(space, x, asked) {
            Found::At(n) => {
                let form = &walk.form[..n];
                y = try_form(space, x, free, root, form, asked.index, y)?;
            }
            Found::TooLong => return Err(Untried::Unknown),
            Found::End => return Ok(y),
        }
    }
}

// The same, and the space is as it was.
fn try_all(
    space: &mut [u32],
    x: Sides,
    free: usize,
    root: usize,
    asked: &Request,
) -> Result<Tally, Untried>
    requires { Tryable space.old x free root asked.now.pairs.now asked.now.copies.now }
    ensures { TriesAll (search_indexed asked.now.index.now x.h.nodes) space.old x free root
        asked.now.pairs.now asked.now.copies.now space.new result }
{
    let r = try_forms(space, x, free, root, asked);
    wipe(space, room_of(x, free));
    r
}

// Whether there is room by a count on trial in so many nodes; nothing where that does not settle it.
fn settle(h: Head, free: usize, r: Result<Tally, Untried>) -> Option<Result<(), Refusal>>
    requires { HeadCounts h }
    ensures { Settles h free r result }
{
    match r {
        Ok(y) => {
            if h.node_capacity < y.used {
                return Some(Err(Refusal::Nodes));
            }
            let answers = (h.answer_capacity - h.answers) as u64;
            if answers < y.answers {
                return Some(Err(Refusal::RecordsLeft));
            }
            Some(Ok(()))
        }
        Err(Untried::Over) => {
            if free == h.node_capacity - h.nodes {
                return Some(Err(Refusal::Nodes));
            }
            None
        }
        Err(Untried::Unknown) => None,
    }
}

// The same of the forms of a join, where the free nodes are zeros.
pub fn on_trial(
    space: &mut [u32],
    x: Sides,
    root: usize,
    asked: &Request,
    free: usize,
) -> Option<Result<(), Refusal>>
    requires { Triable space.old x free root asked.now.pairs.now asked.now.copies.now }
    ensures { Settled (search_indexed asked.now.index.now x.h.nodes) space.old x root
        asked.now.pairs.now asked.now.copies.now space.new result }
{
    if is_blank(space, room_of(x, free)) {
        let r = try_all(space, x, free, root, asked);
        return settle(x.h, free, r);
    }
    None
}
