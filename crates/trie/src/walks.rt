// The walk of a list of tokens from a root, by any search for a child; and by an index, where one of no cells is none.
// `stood` is the number of nodes that were there when the call began.
ghost use Rattle.std.specs.Prelude.{◌≡◌, ◌<◌};
ghost use Rattle.space.specs.Layout.{sizes};
ghost use Rattle.space.specs.Sound.{NodesIn};
ghost use Rattle.trie.specs.Siblings.{trie_in};
ghost use Rattle.trie.specs.Walks.{Searches, WalksBy};
ghost use Rattle.trie.specs.Index.{walked_in};

use super::lookups::search_indexed;
use super::slots::used_slots;
use super::{Search, Walked};
use space::records::read_node;

// The walk from a root, by a search among the children of a node that was read and found sound.
pub fn walk_by<F: Fn(usize, u32) -> Search>(
    space: &[u32],
    nodes: usize,
    links: usize,
    root: usize,
    tokens: &[u32],
    search: F,
) -> Walked
    requires nodes_in { NodesIn space.now nodes × (root < nodes) }
    requires searches { Searches (F.pre search) (F.post search) (trie_in sizes space.now nodes links) }
    ensures { WalksBy (F.post search) (trie_in sizes space.now nodes links) root tokens.now result }
{
    let Some(y) = read_node(space, nodes, links, root) else {
        return Walked::Damaged;
    };
    if y.parent != root {
        return Walked::Damaged;
    }
    let mut n = root;
    for (i, &token) in tokens.iter().enumerate() {
        match search(n, token) {
            Search::Found(child) => n = child,
            Search::Last(last) => return Walked::Stopped(n, last, tokens.len() - i),
            Search::Damaged => return Walked::Damaged,
        }
    }
    Walked::Whole(n)
}

// By an index. Slots whose number is no power of two are left aside.
pub fn walk_tokens(
    space: &[u32],
    nodes: usize,
    links: usize,
    root: usize,
    tokens: &[u32],
    index: &[u32],
    stood: usize,
) -> Walked
    requires { NodesIn space.now nodes × (root < nodes) }
    ensures { result ≡ walked_in space.now nodes links root tokens.now index.now stood }
{
    let slots = &index[..used_slots(index.len())];
    let search = |n, token| search_indexed(space, nodes, links, n, token, slots, stood);
    walk_by(space, nodes, links, root, tokens, search)
}
