// Which children enter: those of a node that has more than 8. All nodes fit, so every child and sibling that a node
// names is one.
ghost use Rattle.std.specs.Prelude.{◌≡◌};
ghost use Rattle.trie.specs.Index.{crowded};
ghost use Rattle.trie.specs.Index as index;
ghost use Rattle.indexing.specs.Parts.{tries_in, AllFit, AmongFit, EnteringCounted};

use space::Head;
use space::records::node_in;

// Where a node has no more children than these, they do not enter.
const FEW_CHILDREN: usize = 8;

// Has node n more than a few children?
fn is_crowded(space: &[u32], h: Head, n: usize) -> bool
    requires { AmongFit space.now h n }
    ensures { result ≡ crowded (tries_in space.now h) n }
{
    let mut child = node_in(space, h.nodes, n).child;
    let mut count = 0;
    while child != 0 {
        count += 1;
        if FEW_CHILDREN < count {
            return true;
        }
        child = node_in(space, h.nodes, child).sibling;
    }
    false
}

// Is node n a child of a node that has more than a few?
pub fn enters(space: &[u32], h: Head, n: usize) -> bool
    requires { AmongFit space.now h n }
    ensures { result ≡ index.enters (tries_in space.now h) n }
{
    let y = node_in(space, h.nodes, n);
    y.parent != n && is_crowded(space, h, y.parent)
}

// How many nodes enter.
pub fn count_entering(space: &[u32], h: Head) -> usize
    requires { AllFit space.now h }
    ensures { EnteringCounted space.now h result }
{
    let mut count = 0;
    for n in 0..h.nodes {
        if enters(space, h, n) {
            count += 1;
        }
    }
    count
}
