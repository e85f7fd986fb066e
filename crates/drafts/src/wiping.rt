// The cells of a draft: are they zeros before it, and zeros again after it.
ghost use Rattle.std.specs.Prelude.{◌≡◌, ◌+◌, ◌≤◌};
ghost use Rattle.space.specs.Sound.{NodesIn};
ghost use Rattle.drafts.specs.Wiping.{Blanked, Wiped};
ghost use Rattle.space.specs.Layout.{sizes, most, node_at};

use super::Room;
use space::blocks::nodes_end;

// Are all of them zeros?
pub fn is_blank(space: &[u32], x: Room) -> bool
    requires { NodesIn space.now (x.base + x.most) }
    ensures { Blanked space.now x result }
{
    space[nodes_end(x.base)..nodes_end(x.base + x.most)]
        .iter()
        .all(|&c| c == 0)
}

// Zeros in all of them.
pub fn wipe(space: &mut [u32], x: Room)
    requires { NodesIn space.old (x.base + x.most) }
    ensures { Wiped space.old x space.new }
{
    space[nodes_end(x.base)..nodes_end(x.base + x.most)].fill(0);
}
