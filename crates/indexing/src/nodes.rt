// The nodes, one after another: each is judged as a call judges it, its first child must name it as the parent, and its
// next sibling must have its parent. Those before it were judged already, so the way up from it falls and ends.
ghost use Rattle.std.specs.Prelude.{◌≡◌};
ghost use Rattle.space.specs.Layout.{sizes, node_in};
ghost use Rattle.space.specs.Sound.{Bounds, NodeOf};
ghost use Rattle.store.specs.Clauses.{view_in};
ghost use Rattle.store.specs.Building.{root_above, node_fit, nodes_fit};
ghost use Rattle.indexing.specs.Parts.{Falling, link_fits, FitBefore};

use space::Head;
use space::records::{node_in, read_node};
use trie::siblings::parent_is;

// The root that the parents of node n lead to.
fn root_above(space: &[u32], nodes: usize, n: usize) -> usize
    requires { NodeOf space.now nodes n × Falling (node_in sizes space.now) n }
    ensures { result ≡ root_above nodes (node_in sizes space.now) n }
{
    let mut root = n;
    loop {
        let y = node_in(space, nodes, root);
        if y.parent == root {
            return root;
        }
        root = y.parent;
    }
}

// Is a link of node n within the subgoals below node 0, within the answers below every other root? The root is looked
// for only where the link is within one of the counts and not the other.
fn link_fits(space: &[u32], h: Head, n: usize, link: usize) -> bool
    requires { NodeOf space.now h.nodes n × Falling (node_in sizes space.now) n }
    ensures { result ≡ link_fits (view_in space.now h) n link }
{
    if link <= h.subgoals {
        return link <= h.answers || root_above(space, h.nodes, n) == 0;
    }
    link <= h.answers && root_above(space, h.nodes, n) != 0
}

// Node n; those before it fit.
fn node_fits(space: &[u32], h: Head, n: usize) -> bool
    requires { FitBefore space.now h n }
    ensures { result ≡ node_fit (view_in space.now h) n }
{
    match read_node(space, h.nodes, h.subgoals + h.answers, n) {
        Some(y) => {
            link_fits(space, h, n, y.link)
                && parent_is(space, h.nodes, y.child, n)
                && parent_is(space, h.nodes, y.sibling, y.parent)
        }
        None => false,
    }
}

// All nodes used.
pub fn nodes_fit(space: &[u32], h: Head) -> bool
    requires { Bounds space.now h }
    ensures { result ≡ nodes_fit (view_in space.now h) h.nodes }
{
    for n in 0..h.nodes {
        if !node_fits(space, h, n) {
            return false;
        }
    }
    true
}
