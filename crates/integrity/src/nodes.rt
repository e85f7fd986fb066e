// The nodes of all tries, one after another: each is judged as a call judges it, led back to by the record that it
// names, and found by a search among its parent's children.
ghost use Rattle.std.specs.Prelude.{◌≡◌, true, ◌+◌, ◌<◌, ◌≤◌};
ghost use Rattle.plain.specs.Coding.{coding_of};
ghost use Rattle.trie.specs.Siblings.{search_children};
ghost use Rattle.store.specs.Clauses.{view_at};
ghost use Rattle.agreement.specs.Whole.{ends_at, root_whole, child_whole};
ghost use Rattle.agreement.specs.Faults.{node_broken};
ghost use Rattle.integrity.specs.Tests.{subgoal_ends, answer_ends, leads_back, root_named};
ghost use Rattle.integrity.specs.Tests.{tries_in, node_test, NodesWhole, NodeOfNumber, ChildOfNumber};

use super::passes::first_failing;
use space::Node;
use space::records::read_node;
use space::tables::Table;
use trie::Search;
use trie::siblings::{parent_is, search_children};

// Is k a subgoal whose form ends at node i?
#[tactic(auto, unfolding(crate::specs::Tests::subgoal_ends))]
fn subgoal_ends(table: &Table, k: usize, i: usize) -> bool
    requires { 1 ≤ k }
    ensures { result ≡ subgoal_ends (view_at table.now) k i }
{
    k <= table.head.subgoals && table.subgoal(k).leaf == i
}

// Is k an answer whose form ends there?
#[tactic(auto, unfolding(crate::specs::Tests::answer_ends))]
fn answer_ends(table: &Table, k: usize, i: usize) -> bool
    requires { 1 ≤ k }
    ensures { result ≡ answer_ends (view_at table.now) k i }
{
    k <= table.head.answers && table.answer(k).leaf == i
}

// Does the link k of node i lead back to it?
#[tactic(auto, unfolding(crate::specs::Tests::leads_back))]
fn leads_back(table: &Table, k: usize, i: usize) -> bool
    ensures { result ≡ leads_back (view_at table.now) k i }
{
    k == 0 || subgoal_ends(table, k, i) || answer_ends(table, k, i)
}

// Is s a subgoal whose answer root is node i?
#[tactic(auto, unfolding(crate::specs::Tests::root_named))]
fn root_named(table: &Table, s: usize, i: usize) -> bool
    ensures { result ≡ root_named (view_at table.now) s i }
{
    0 < s && s <= table.head.subgoals && table.subgoal(s).root == i
}

// A root: that of the subgoals, or it follows the leaf of the subgoal that names it.
#[tactic(auto, unfolding(agreement::specs::Whole::root_whole, crate::specs::Tests::root_named))]
fn root_whole(table: &Table, i: usize, y: Node) -> bool
    requires { NodeOfNumber table.now i y }
    ensures { result ≡ root_whole (coding_of table.now.head.edition) (view_at table.now) i }
{
    if y.token != 0 || y.sibling != 0 {
        return false;
    }
    i == 0 || root_named(table, table.node(i - 1).link, i)
}

// Does the search for its token among its parent's children find node i?
fn is_found(table: &Table, i: usize, y: Node) -> bool
    requires { ChildOfNumber table.now i y }
    ensures { result ≡ ends_at i (search_children (tries_in table.now) y.parent y.token) }
{
    let links = table.head.subgoals + table.head.answers;
    match search_children(table.cells, table.head.nodes, links, y.parent, y.token) {
        Search::Found(j) => j == i,
        Search::Last(_) | Search::Damaged => false,
    }
}

// A node below another; those before it are whole.
#[tactic(auto, unfolding(agreement::specs::Whole::child_whole, trie::specs::Siblings::parent_is))]
fn child_whole(table: &Table, i: usize, y: Node) -> bool
    requires { ChildOfNumber table.now i y }
    ensures { result ≡ child_whole (coding_of table.now.head.edition) (view_at table.now) i }
{
    parent_is(table.cells, table.head.nodes, y.sibling, y.parent)
        && is_found(table, i, y)
        && (y.link != 0 || y.child != 0)
}

// Node i; those before it are whole.
fn node_whole(table: &Table, i: usize) -> bool
    requires { (i < table.now.head.nodes) × NodesWhole table.now i }
    ensures { result ≡ node_test table.now i }
{
    let links = table.head.subgoals + table.head.answers;
    let Some(y) = read_node(table.cells, table.head.nodes, links, i) else {
        return false;
    };
    if !parent_is(table.cells, table.head.nodes, y.child, i) || !leads_back(table, y.link, i) {
        return false;
    }
    if y.parent == i {
        root_whole(table, i, y)
    } else {
        child_whole(table, i, y)
    }
}

// The first node that is not whole; the nodes used where all are.
pub fn first_node(table: &Table) -> usize
    ensures { result ≡ node_broken (coding_of table.now.head.edition) (view_at table.now) }
{
    first_failing(table.head.nodes, |i| node_whole(table, i))
}
