// The build of an index: a second array of cells, by which a child is found from its parent and its token. It takes a
// pass that judges the nodes, one that counts the children to enter and one that enters them, and no memory. No slot is
// written before it is known that the build is not refused.
#![tactic(auto)]

mod entering;
mod filling;
mod nodes;

ghost use Rattle.space.specs.Sound.{Bounds};
ghost use Rattle.store.specs.Building.{build_on, build_under};
ghost use Rattle.indexing.specs.Parts.{BuildLeaves, Builds, tries_in, AllFit};

use basis::refusals::Refusal;
use entering::count_entering;
use filling::fill;
use nodes::nodes_fit;
use space::Head;
use space::heading::read_header;
use trie::slots::is_power_of_two;

// Where all nodes fit: the slots must be a power of two, and half of them stay free.
fn build_on(space: &[u32], h: Head, index: &mut [u32]) -> Result<u32, Refusal>
    requires { AllFit space.now h }
    ensures { BuildLeaves (build_on (tries_in space.now h) index.old) result index.new }
{
    if is_power_of_two(index.len()) {
        let count = count_entering(space, h);
        if fill(space, h, index, count) {
            return Ok(count as u32);
        }
    }
    Err(Refusal::Slots)
}

// Under a sound header.
fn build_in(space: &[u32], h: Head, index: &mut [u32]) -> Result<u32, Refusal>
    requires { Bounds space.now h }
    ensures { BuildLeaves (build_under space.now index.old (Ok h)) result index.new }
{
    if nodes_fit(space, h) {
        return build_on(space, h, index);
    }
    Err(Refusal::Records)
}

// Fills the index from the nodes of a space: how many children entered. Refused, the index is as it was.
pub fn build(space: &[u32], index: &mut [u32]) -> Result<u32, Refusal>
    ensures { Builds space.now index.old result index.new }
{
    let h = read_header(space)?;
    build_in(space, h, index)
}
