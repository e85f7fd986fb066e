// A running space of edition 1 carried over into one of edition 2 with capacities of its own: all that can refuse is
// decided on the cells as they are lent, then the copy is written.
#![tactic(auto)]

pub mod deciding;
pub mod tokens;
pub mod writing;

ghost use Rattle.carrying.specs.Recoding.{widening};
ghost use Rattle.carrying.specs.Clauses.{CopiesInto};

use basis::refusals::Refusal;
use deciding::decide;
use writing::write;

// Of the source, and of the copy.
pub const SOURCE_EDITION: u32 = 1;

pub const EDITION: u32 = 2;

// Copies the subgoals and the answers of the source, by number, into the target; refused, the target stays as it was.
pub fn carry(
    source: &[u32],
    target: &mut [u32],
    nodes: u32,
    subgoals: u32,
    answers: u32,
) -> Result<(), Refusal>
    ensures { CopiesInto 1 2 widening nodes subgoals answers source.now target.old result target.new }
{
    decide(source, target, nodes, subgoals, answers)?;
    write(source, target, nodes, subgoals, answers);
    Ok(())
}
