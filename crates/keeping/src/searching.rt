// The search among the children of a node by a ledger that has every node: the first child, then the slots; where they
// lack the child, the last child that is noted.
ghost use Rattle.std.specs.Prelude.{◌≡◌, true, ◌+◌, ◌<◌, ◌≤◌, ◌^◌, length};
ghost use Rattle.space.specs.Layout.{sizes};
ghost use Rattle.space.specs.Sound.{NodesIn};
ghost use Rattle.trie.specs.Siblings.{trie_in, sound};
ghost use Rattle.trie.specs.Ledger.{is_last, found_in, search_in};
ghost use Rattle.keeping.specs.Clauses.{ledger_in, trie_for, LooksUp, LedgerRoom, Usable};

use super::slots::mixed_slot;
use basis::wide;
use space::records::{node_in, read_node};
use trie::Search;
use trie::lookups::{confirms, judge};
use trie::siblings::search_children;
use trie::slots::slot_after;

// What the slots give: the child, or 0 where they lack it, as in the table's cells (`probe`).
fn look_up(space: &[u32], nodes: usize, parent: usize, token: u32, slots: &[u32]) -> usize
    requires { NodesIn space.now nodes × (parent < nodes)
        × (0 < length slots.now) × (length slots.now ≤ 2 ^ 32) }
    ensures { LooksUp space.now nodes parent token slots.now result }
{
    let size = slots.len();
    let mut slot = mixed_slot(size, parent, token);
    for _ in 0..size {
        let x = wide(slots[slot]);
        if x == 0 {
            return 0;
        }
        if confirms(space, nodes, parent, token, x) {
            return x;
        }
        slot = slot_after(size, slot);
    }
    0
}

// Is node l the last child of `parent`, by its own record?
#[tactic(auto, unfolding(trie::specs::Ledger::is_last))]
fn is_last(space: &[u32], nodes: usize, links: usize, parent: usize, l: usize) -> bool
    requires { NodesIn space.now nodes }
    ensures { result ≡ is_last (trie_in sizes space.now nodes links) parent l }
{
    if l <= parent || nodes <= l {
        return false;
    }
    match read_node(space, nodes, links, l) {
        Some(y) => y.parent == parent && y.sibling == 0,
        None => false,
    }
}

// By the slots, and the last child that is noted.
fn find(
    space: &[u32],
    nodes: usize,
    links: usize,
    parent: usize,
    token: u32,
    lasts: &[u32],
    slots: &[u32],
) -> Search
    requires nodes_in { NodesIn space.now nodes × (parent < nodes) × LedgerRoom (parent + 1) lasts.now slots.now }
    requires parent_value { sound (trie_in sizes space.now nodes links) parent ≡ true }
    ensures { result ≡ found_in (ledger_in lasts.now slots.now) (trie_for space.now nodes links) parent token }
{
    let x = look_up(space, nodes, parent, token, slots);
    if x != 0 {
        return judge(space, nodes, links, x);
    }
    let l = wide(lasts[parent + 1]);
    if is_last(space, nodes, links, parent, l) {
        return Search::Last(l);
    }
    search_children(space, nodes, links, parent, token)
}

// All children of a node that was read and found sound; along the siblings where there is no slot.
pub fn search_kept(
    space: &[u32],
    nodes: usize,
    links: usize,
    parent: usize,
    token: u32,
    lasts: &[u32],
    slots: &[u32],
) -> Search
    requires nodes_in { NodesIn space.now nodes × (parent < nodes) × Usable nodes lasts.now slots.now }
    requires parent_value { sound (trie_in sizes space.now nodes links) parent ≡ true }
    ensures { result ≡ search_in (ledger_in lasts.now slots.now) (trie_for space.now nodes links) parent token }
{
    if slots.is_empty() {
        return search_children(space, nodes, links, parent, token);
    }
    let y = node_in(space, nodes, parent);
    if y.child == 0 {
        return Search::Last(0);
    }
    let first = y.child;
    let Some(z) = read_node(space, nodes, links, first) else {
        return Search::Damaged;
    };
    if z.parent != parent {
        return Search::Damaged;
    }
    if z.token == token {
        return Search::Found(first);
    }
    if z.sibling == 0 {
        return Search::Last(first);
    }
    find(space, nodes, links, parent, token, lasts, slots)
}
