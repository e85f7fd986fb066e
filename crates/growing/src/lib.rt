// A table that is given other capacities in its place.
#![tactic(auto)]

pub mod moving;

ghost use Rattle.std.specs.Prelude.{◌≡◌};
ghost use Rattle.space.specs.Layout.{sizes_of};
ghost use Rattle.growing.specs.Growing.{enough, grown_cells};
ghost use Rattle.growing.specs.Clauses.{Grows, GrowsInto};

use basis::refusals::Refusal;
use basis::wide;
use moving::move_both;
use space::Head;
use space::blocks::{answers_end, nodes_end, subgoals_end};
use space::fresh::{clear, fits};
use space::heading::{read_header, write_offsets};

// So many cells that stand one after another, and where the first of them stands and is to stand.
#[derive(Clone, Copy)]
pub struct Block {
    pub from: usize,
    pub to: usize,
    pub count: usize,
}

// Is no capacity below what is used?
#[tactic(auto, unfolding(crate::specs::Growing::enough))]
fn is_enough(h: Head, n: usize, f: usize, a: usize) -> bool
    ensures { result ≡ enough n f a h }
{
    h.nodes <= n && h.subgoals <= f && h.answers <= a
}

// Moves the blocks, clears the free records and writes the new offsets.
fn rearrange(space: &mut [u32], h: Head, n: usize, f: usize, a: usize)
    requires { Grows n f a h space.old }
    ensures { space.new ≡ grown_cells n f a (sizes_of h.edition) h space.old }
{
    let subgoal_offset = nodes_end(n);
    let answer_offset = subgoals_end(h.edition, subgoal_offset, f);
    let end = answers_end(h.edition, answer_offset, a);
    let nodes = nodes_end(h.nodes);
    let subgoals = subgoals_end(h.edition, subgoal_offset, h.subgoals);
    let answers = answers_end(h.edition, answer_offset, h.answers);
    move_both(
        space,
        Block {
            from: h.subgoal_offset,
            to: subgoal_offset,
            count: subgoals - subgoal_offset,
        },
        Block {
            from: h.answer_offset,
            to: answer_offset,
            count: answers - answer_offset,
        },
    );
    clear(space, nodes, subgoal_offset);
    clear(space, subgoals, answer_offset);
    clear(space, answers, end);
    write_offsets(
        space,
        subgoal_offset as u32,
        answer_offset as u32,
        end as u32,
    );
}

// Gives a table these capacities, larger or smaller, in its place: it was lent enough cells. Refused, it stays as it
// was.
pub fn grow(space: &mut [u32], nodes: u32, subgoals: u32, answers: u32) -> Result<(), Refusal>
    ensures { GrowsInto nodes subgoals answers space.old result space.new }
{
    let n = wide(nodes);
    let f = wide(subgoals);
    let a = wide(answers);
    let h = read_header(space)?;
    if !fits(n, f, a, space, h.edition) {
        return Err(Refusal::Fresh);
    }
    if !is_enough(h, n, f, a) {
        return Err(Refusal::Capacity);
    }
    rearrange(space, h, n, f, a);
    Ok(())
}
