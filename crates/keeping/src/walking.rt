// The walk of a list of tokens from a root by a ledger that was caught up; along the siblings alone where it has not
// every node.
ghost use Rattle.std.specs.Prelude.{◌<◌, ◌≡◌};
ghost use Rattle.space.specs.Sound.{NodesIn};
ghost use Rattle.keeping.specs.Clauses.{UsesSlots, ledger_walk};

use super::entering::capacity;
use super::searching::search_kept;
use basis::wide;
use trie::Walked;
use trie::walks::walk_by;

// The slots that are looked in: all of them or, where the ledger has not every node, none.
#[tactic(auto, using(crate::proofs::Cases::capacity_held), unfolding(trie::specs::Ledger::usable))]
fn used_slots(nodes: usize, lasts: &[u32], slots: &[u32]) -> usize
    requires { 0 < nodes }
    ensures { UsesSlots nodes lasts.now slots.now result }
{
    if nodes <= capacity(lasts.len(), slots.len()) && wide(lasts[0]) == nodes {
        slots.len()
    } else {
        0
    }
}

// The walk from a root.
pub fn walk_kept(
    space: &[u32],
    nodes: usize,
    links: usize,
    root: usize,
    tokens: &[u32],
    lasts: &[u32],
    slots: &[u32],
) -> Walked
    requires { NodesIn space.now nodes × (root < nodes) }
    ensures { result ≡ ledger_walk space.now nodes links root tokens.now lasts.now slots.now }
{
    let used = &slots[..used_slots(nodes, lasts, slots)];
    let search = |n, token| search_kept(space, nodes, links, n, token, lasts, used);
    walk_by(space, nodes, links, root, tokens, search)
}
