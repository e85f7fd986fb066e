// One entry of a draft: found by its parent and its token, or made.
ghost use Rattle.std.specs.Prelude.{◌≡◌, ◌+◌, ◌%◌, ◌<◌, ◌≤◌, ◌^◌};
ghost use Rattle.drafts.specs.Entries.{slot_in, is_entry, EntryFound, EntryPlaced, EntryReached};
ghost use Rattle.drafts.specs.Entries.{Seekable, Placeable, Reachable};

use super::{Reached, Room};
use space::Node;
use space::records::{node_in, write_child, write_node};

// The node whose child field is the slot of a parent and a token. The factor spreads the children of near parents.
#[tactic(auto, unfolding(crate::specs::Entries::slot_in))]
fn slot_in(x: Room, parent: usize, token: u32) -> usize
    requires { (1 ≤ x.most) × (x.base + x.most < 2 ^ 32) × (parent < 2 ^ 32) }
    ensures { (result ≡ slot_in x parent token) × (x.base ≤ result) × (result < x.base + x.most) }
{
    x.base + (parent * 40503 + token as usize) % x.most
}

// Is this entry the one with this parent and this token?
#[tactic(auto, unfolding(crate::specs::Entries::is_entry))]
fn is_entry(y: Node, parent: usize, token: u32) -> bool
    ensures { result ≡ is_entry y parent token }
{
    y.parent == parent && y.token == token
}

// The entry with this parent and this token; 0 for none, as a chain of entries ends in the cells: `EntryFound`.
fn seek(space: &[u32], x: Room, used: usize, parent: usize, token: u32) -> usize
    requires { Seekable space.now x used parent }
    ensures { EntryFound space.now x used parent token result }
{
    let slot = slot_in(x, parent, token);
    let head = node_in(space, x.base + x.most, slot);
    let mut n = head.child;
    while n != 0 {
        let y = node_in(space, x.base + x.most, n);
        if is_entry(y, parent, token) {
            return n;
        }
        n = y.sibling;
    }
    0
}

// The next free node becomes such an entry, the first of its slot.
fn place(space: &mut [u32], x: Room, used: usize, parent: usize, token: u32)
    requires { Placeable space.old x used parent }
    ensures { EntryPlaced space.old x used parent token space.new }
{
    let all = x.base + x.most;
    let slot = slot_in(x, parent, token);
    let head = node_in(space, all, slot);
    let own = node_in(space, all, used);
    let y = Node {
        token,
        child: own.child,
        sibling: head.child,
        parent,
        link: 0,
    };
    write_node(space, all, used, y);
    write_child(space, all, slot, used as u32);
}

// The entry with this parent and this token, made where there is none; nothing where no node is left.
pub fn reach(space: &mut [u32], x: Room, used: usize, parent: usize, token: u32) -> Option<Reached>
    requires { Reachable space.old x used parent }
    ensures { EntryReached space.old x used parent token space.new result }
{
    if x.most == 0 {
        return None;
    }
    let n = seek(space, x, used, parent, token);
    if n != 0 {
        return Some(Reached { node: n, used });
    }
    if used == x.base + x.most {
        return None;
    }
    place(space, x, used, parent, token);
    Some(Reached {
        node: used,
        used: used + 1,
    })
}
