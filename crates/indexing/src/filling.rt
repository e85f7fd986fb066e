// An index is filled: every slot is freed, and then the children enter by number, each in the first free slot from its
// own on.
ghost use Rattle.std.specs.Prelude.{◌≡◌, length};
ghost use Rattle.indexing.specs.Parts.{looked_at, tries_in, AmongFit, Slots, Insertable};
ghost use Rattle.indexing.specs.Parts.{EntersChildren, FillsIndex};

use super::entering::enters;
use space::Head;
use space::records::node_in;
use trie::slots::{insert_from, slot_of};

// Node n, if it enters.
fn enter(space: &[u32], h: Head, index: &mut [u32], n: usize)
    requires { AmongFit space.now h n × Slots (length index.old) }
    ensures { index.new ≡ looked_at (tries_in space.now h) index.old n }
{
    if enters(space, h, n) {
        let y = node_in(space, h.nodes, n);
        let slot = slot_of(index.len(), y.parent, y.token);
        insert_from(index, slot, n as u32);
    }
}

// All that enter.
fn enter_all(space: &[u32], h: Head, index: &mut [u32])
    requires { Insertable space.now h index.old }
    ensures { EntersChildren space.now h index.old index.new }
{
    for n in 0..h.nodes {
        enter(space, h, index, n);
    }
}

// The index, whatever it held; but only if half of its slots stay free once `count` children are entered. A bool, since
// an Option would hold nothing.
pub fn fill(space: &[u32], h: Head, index: &mut [u32], count: usize) -> bool
    requires { Insertable space.now h index.old }
    ensures { FillsIndex space.now h count index.old result index.new }
{
    let roomy = count <= index.len() / 2;
    if roomy {
        index.fill(0);
        enter_all(space, h, index);
    }
    roomy
}
