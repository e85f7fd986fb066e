// Cells moved within a space.
ghost use Rattle.std.specs.Prelude.{◌≡◌};
ghost use Rattle.growing.specs.Moving.{moved_block, both_moved, BlockIn};

use super::Block;

fn move_block(space: &mut [u32], block: Block)
    requires { BlockIn block space.old }
    ensures { space.new ≡ moved_block block space.old }
{
    space.copy_within(block.from..block.from + block.count, block.to);
}

// Moves two blocks that stand one after the other, before and afterwards.
pub fn move_both(space: &mut [u32], b: Block, d: Block)
    requires { BlockIn b space.old × BlockIn d space.old }
    ensures { space.new ≡ both_moved b d space.old }
{
    if b.from < b.to {
        move_block(space, d);
        move_block(space, b);
    } else {
        move_block(space, b);
        move_block(space, d);
    }
}
