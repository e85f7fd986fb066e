// The search among the children of a node, and whether a node that another names has the parent that it must.
ghost use Rattle.std.specs.Prelude.{◌≡◌, ◌<◌, true};
ghost use Rattle.space.specs.Layout.{sizes, node_in};
ghost use Rattle.space.specs.Sound.{NodesIn, NodeOf};
ghost use Rattle.trie.specs.Siblings.{trie_in, sound, parent_is, search_siblings, search_children};

use super::Search;
use space::records::{node_in, read_node};

// Is there no node n, or one with this parent?
#[tactic(auto, unfolding(crate::specs::Siblings::parent_is))]
pub fn parent_is(space: &[u32], nodes: usize, n: usize, parent: usize) -> bool
    requires { NodeOf space.now nodes n }
    ensures { result ≡ parent_is (node_in sizes space.now) n parent }
{
    n == 0 || node_in(space, nodes, n).parent == parent
}

// The siblings from `first` on, children of `parent`.
pub fn search_siblings(
    space: &[u32],
    nodes: usize,
    links: usize,
    parent: usize,
    first: usize,
    token: u32,
) -> Search
    requires { NodesIn space.now nodes × (first < nodes) }
    ensures { result ≡ search_siblings nodes (trie_in sizes space.now nodes links) parent token first }
{
    let mut n = first;
    loop {
        let Some(y) = read_node(space, nodes, links, n) else {
            break Search::Damaged;
        };
        if y.parent != parent {
            break Search::Damaged;
        }
        if y.token == token {
            break Search::Found(n);
        }
        if y.sibling == 0 {
            break Search::Last(n);
        }
        n = y.sibling;
    }
}

// All children of a node that was read and found sound.
pub fn search_children(
    space: &[u32],
    nodes: usize,
    links: usize,
    parent: usize,
    token: u32,
) -> Search
    requires nodes_in { NodesIn space.now nodes × (parent < nodes) }
    requires parent_value { sound (trie_in sizes space.now nodes links) parent ≡ true }
    ensures { result ≡ search_children (trie_in sizes space.now nodes links) parent token }
{
    let y = node_in(space, nodes, parent);
    if y.child == 0 {
        return Search::Last(0);
    }
    search_siblings(space, nodes, links, parent, y.child, token)
}
