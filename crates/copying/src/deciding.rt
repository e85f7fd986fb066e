// What a copy answers, told on the cells as they are lent: nothing is written. A source that passes the check is judged
// by the tokens of its nodes and by its counts; of any other every form is gathered.
ghost use Rattle.std.specs.Prelude.{◌≡◌, ◌&&◌, leb, Ok};
ghost use Rattle.space.specs.Heading.{space_header};
ghost use Rattle.space.specs.Sound.{Bounds};
ghost use Rattle.store.specs.Clauses.{view_in};
ghost use Rattle.carrying.specs.Recoding.{widening};
ghost use Rattle.carrying.specs.Copying.{carry_reply};
ghost use Rattle.carrying.specs.Quick.{quick_reply};
ghost use Rattle.sources.specs.Records.{FirstEdition};
ghost use Rattle.copying.specs.Clauses.{loaded_reply};

use super::tokens::are_named;
use super::{EDITION, SOURCE_EDITION};
use basis::refusals::Refusal;
use basis::wide;
use integrity::check;
use sources::{forms_fit, forms_named, loads};
use space::Head;
use space::fresh::fits;
use space::heading::read_header;

// Are the capacities enough for the counts of a space?
fn counts_fit(h: Head, nodes: u32, subgoals: u32, answers: u32) -> bool
    ensures { result ≡ (leb h.nodes nodes && leb h.subgoals subgoals && leb h.answers answers) }
{
    h.nodes <= wide(nodes) && h.subgoals <= wide(subgoals) && h.answers <= wide(answers)
}

// Of a source that passes the check.
#[tactic(auto, unfolding(carrying::specs::Quick::quick_reply))]
fn whole_answer(
    source: &[u32],
    h: Head,
    nodes: u32,
    subgoals: u32,
    answers: u32,
) -> Result<(), Refusal>
    requires { Bounds source.now h }
    ensures { result ≡ quick_reply widening nodes subgoals answers (view_in source.now h) }
{
    if !are_named(source, h) {
        return Err(Refusal::Functor);
    }
    if !counts_fit(h, nodes, subgoals, answers) {
        return Err(Refusal::Capacity);
    }
    Ok(())
}

// Of any source.
fn loaded_answer(
    source: &[u32],
    h: Head,
    nodes: u32,
    subgoals: u32,
    answers: u32,
) -> Result<(), Refusal>
    requires { FirstEdition source.now h }
    ensures { result ≡ loaded_reply nodes subgoals answers (view_in source.now h) }
{
    if !loads(source, h) {
        return Err(Refusal::Records);
    }
    if !forms_named(source, h) {
        return Err(Refusal::Functor);
    }
    if !forms_fit(source, h, nodes, subgoals, answers) {
        return Err(Refusal::Capacity);
    }
    Ok(())
}

// Under a sound header of the source.
fn decide_in(
    source: &[u32],
    h: Head,
    target: &[u32],
    nodes: u32,
    subgoals: u32,
    answers: u32,
) -> Result<(), Refusal>
    requires { Ok h ≡ space_header source.now }
    ensures { result ≡ carry_reply nodes subgoals answers source.now target.now }
{
    if h.edition != SOURCE_EDITION {
        return Err(Refusal::Header);
    }
    if !fits(wide(nodes), wide(subgoals), wide(answers), target, EDITION) {
        return Err(Refusal::Fresh);
    }
    if check(source).is_ok() {
        return whole_answer(source, h, nodes, subgoals, answers);
    }
    loaded_answer(source, h, nodes, subgoals, answers)
}

// Done, or the refusal that is due first.
pub fn decide(
    source: &[u32],
    target: &[u32],
    nodes: u32,
    subgoals: u32,
    answers: u32,
) -> Result<(), Refusal>
    ensures { result ≡ carry_reply nodes subgoals answers source.now target.now }
{
    let h = read_header(source)?;
    decide_in(source, h, target, nodes, subgoals, answers)
}
