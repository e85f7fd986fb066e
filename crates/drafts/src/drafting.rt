// A word drafted: the tokens below a node that is used, entry by entry.
ghost use Rattle.std.specs.Prelude.{◌+◌, ◌<◌};
ghost use Rattle.space.specs.Sound.{NodeOf};
ghost use Rattle.drafts.specs.Drafts.{Draftable, WordDrafted, LinkMarked};

use super::entries::reach;
use super::{Drafted, Room};
use space::records::{node_in, write_link};

// A word ends at this entry: did one before?
fn mark(space: &mut [u32], x: Room, n: usize) -> bool
    requires { NodeOf space.old (x.base + x.most) n }
    ensures { LinkMarked space.old n space.new result }
{
    let all = x.base + x.most;
    let y = node_in(space, all, n);
    write_link(space, all, n, 1);
    y.link != 0
}

// The tokens below node `stop`, of which there is one at least; nothing where no node is left.
pub fn draft(
    space: &mut [u32],
    x: Room,
    used: usize,
    stop: usize,
    tokens: &[u32],
) -> Option<Drafted>
    requires { Draftable space.old x used stop tokens.now }
    ensures { WordDrafted space.old x used stop tokens.now space.new result }
{
    let mut n = stop;
    let mut k = used;
    for &token in tokens {
        let reached = reach(space, x, k, n, token)?;
        n = reached.node;
        k = reached.used;
    }
    let held = mark(space, x, n);
    Some(Drafted { used: k, held })
}
