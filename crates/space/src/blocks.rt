// Where the three blocks of a space end: nodes, subgoals and answers, each after the one before.
ghost use Rattle.std.specs.Prelude.{◌≡◌, ◌+◌, ◌*◌, ◌≤◌};
ghost use Rattle.space.specs.Layout.{sizes, most, subgoal_offset_of};
ghost use Rattle.space.specs.Sound.{subgoals_end, answers_end};

use super::layout::{ANSWER_CELLS, HEADER_CELLS, NODE_CELLS, SUBGOAL_CELLS};

// The cell after n nodes.
pub fn nodes_end(n: usize) -> usize
    requires { n ≤ most }
    ensures { (result ≡ subgoal_offset_of sizes n) × (result ≤ 8 + 5 * most) }
{
    HEADER_CELLS + NODE_CELLS * n
}

// The cell after n subgoals that begin at an offset.
pub fn subgoals_end(edition: u32, offset: usize, n: usize) -> usize
    requires { (offset ≤ 8 + 5 * most) × (n ≤ most) }
    ensures { (result ≡ subgoals_end edition offset n) × (result ≤ 8 + 12 * most) }
{
    offset + SUBGOAL_CELLS * n
}

// The cell after n answers that begin at an offset.
pub fn answers_end(edition: u32, offset: usize, n: usize) -> usize
    requires { (offset ≤ 8 + 12 * most) × (n ≤ most) }
    ensures { (result ≡ answers_end edition offset n) × (result ≤ 8 + 16 * most) }
{
    offset + ANSWER_CELLS * n
}
