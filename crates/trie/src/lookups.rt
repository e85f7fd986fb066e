// The search among the children of a node with an index: a slot and a sibling in turn.
ghost use Rattle.std.specs.Prelude.{◌≡◌, ◌<◌, true, length};
ghost use Rattle.space.specs.Layout.{sizes};
ghost use Rattle.space.specs.Sound.{NodesIn};
ghost use Rattle.trie.specs.Siblings.{trie_in, sound};
ghost use Rattle.trie.specs.Index.{powered, confirmed_in, judged_in, entry_beside, search_indexed, Slotted};

use super::Search;
use super::siblings::{search_children, search_siblings};
use super::slots::{slot_after, slot_of};
use basis::wide;
use space::records::{node_in, read_node};

// Is node x a child of `parent` with the token, by its own record?
#[tactic(auto, unfolding(crate::specs::Index::confirmed_in, crate::specs::Index::confirmed))]
pub fn confirms(space: &[u32], nodes: usize, parent: usize, token: u32, x: usize) -> bool
    requires { NodesIn space.now nodes }
    ensures { result ≡ confirmed_in space.now nodes parent token x }
{
    if x <= parent || nodes <= x {
        return false;
    }
    let y = node_in(space, nodes, x);
    y.parent == parent && y.token == token
}

// The entry x was confirmed: it is judged whole, as a node compared is.
pub fn judge(space: &[u32], nodes: usize, links: usize, x: usize) -> Search
    requires { NodesIn space.now nodes × (x < nodes) }
    ensures { result ≡ judged_in space.now nodes links x }
{
    match read_node(space, nodes, links, x) {
        Some(_) => Search::Found(x),
        None => Search::Damaged,
    }
}

// What stands in the slot, beside sibling n: 0, as in the cells of an index (`entry_beside`), where n did not stand
// when the call began.
#[tactic(auto, unfolding(crate::specs::Index::entry_beside))]
pub fn entry_beside(index: &[u32], stood: usize, slot: usize, n: usize) -> usize
    requires { slot < length index.now }
    ensures { result ≡ entry_beside index.now stood slot n }
{
    if n < stood { wide(index[slot]) } else { 0 }
}

// All children of a node that was read and found sound, from the slot of this parent and token on.
fn search_in_turn(
    space: &[u32],
    nodes: usize,
    links: usize,
    parent: usize,
    token: u32,
    index: &[u32],
    stood: usize,
) -> Search
    requires nodes_in { NodesIn space.now nodes × (parent < nodes) × powered index.now }
    requires parent_value { sound (trie_in sizes space.now nodes links) parent ≡ true }
    ensures { result ≡ search_indexed index.now stood (trie_in sizes space.now nodes links) parent token }
{
    let p = node_in(space, nodes, parent);
    if p.child == 0 {
        return Search::Last(0);
    }
    let mut n = p.child;
    let mut slot = slot_of(index.len(), parent, token);
    loop {
        let x = entry_beside(index, stood, slot, n);
        if x == 0 {
            break search_siblings(space, nodes, links, parent, n, token);
        }
        if confirms(space, nodes, parent, token, x) {
            break judge(space, nodes, links, x);
        }
        let Some(y) = read_node(space, nodes, links, n) else {
            break Search::Damaged;
        };
        if y.parent != parent {
            break Search::Damaged;
        }
        if y.token == token {
            break Search::Found(n);
        }
        if y.sibling == 0 {
            break Search::Last(n);
        }
        n = y.sibling;
        slot = slot_after(index.len(), slot);
    }
}

// The same; along the siblings alone where there is no slot.
pub fn search_indexed(
    space: &[u32],
    nodes: usize,
    links: usize,
    parent: usize,
    token: u32,
    index: &[u32],
    stood: usize,
) -> Search
    requires nodes_in { NodesIn space.now nodes × (parent < nodes) × Slotted index.now }
    requires parent_value { sound (trie_in sizes space.now nodes links) parent ≡ true }
    ensures { result ≡ search_indexed index.now stood (trie_in sizes space.now nodes links) parent token }
{
    if index.is_empty() {
        return search_children(space, nodes, links, parent, token);
    }
    search_in_turn(space, nodes, links, parent, token, index, stood)
}
