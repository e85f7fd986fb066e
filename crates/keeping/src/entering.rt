// Nodes are entered in a ledger by number, from the one that its first cell names on.
ghost use Rattle.std.specs.Prelude.{◌≡◌, ◌<◌, ◌≤◌, ◌^◌, length};
ghost use Rattle.space.specs.Sound.{NodesIn};
ghost use Rattle.keeping.specs.Clauses.{ledger_in, nodes_held, nodes_in, LedgerRoom, EntersNode, CatchesUp};

use super::slots::mixed_slot;
use basis::wide;
use space::records::node_in;
use trie::slots::insert_from;

// Node n: if it is a child, it is its parent's last one so far, and takes a slot.
fn enter(space: &[u32], nodes: usize, n: usize, lasts: &mut [u32], slots: &mut [u32])
    requires { NodesIn space.now nodes × (n < nodes) × LedgerRoom n lasts.old slots.old }
    ensures { EntersNode space.now n lasts.old slots.old lasts.new slots.new }
{
    let y = node_in(space, nodes, n);
    if n <= y.parent {
        lasts[0] = (n + 1) as u32;
        return;
    }
    let slot = mixed_slot(slots.len(), y.parent, y.token);
    lasts[y.parent + 1] = n as u32;
    lasts[0] = (n + 1) as u32;
    insert_from(slots, slot, n as u32);
}

// The nodes that a ledger of these lengths has cells for.
#[tactic(auto, unfolding(crate::specs::Clauses::nodes_held))]
pub fn capacity(lasts: usize, slots: usize) -> usize
    ensures { result ≡ nodes_held lasts slots }
{
    if slots <= 4294967296 {
        lasts.saturating_sub(1).min(slots / 2)
    } else {
        0
    }
}

// All nodes that are not entered yet, as far as there are cells for them.
pub fn catch_up(space: &[u32], nodes: usize, lasts: &mut [u32], slots: &mut [u32])
    requires { NodesIn space.now nodes }
    ensures { CatchesUp space.now nodes lasts.old slots.old lasts.new slots.new }
{
    let room = capacity(lasts.len(), slots.len());
    if room == 0 {
        return;
    }
    for n in wide(lasts[0])..nodes.min(room) {
        enter(space, nodes, n, lasts, slots);
    }
}
