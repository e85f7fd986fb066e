// What a copy writes: a fresh space of edition 2, the subgoals of the source by number, its answers by number, and its
// states last, since a ground subgoal is finished by its one answer.
ghost use Rattle.std.specs.Prelude.{◌≡◌, ◌≤◌, length, Ok};
ghost use Rattle.space.specs.Layout.{sizes_of};
ghost use Rattle.space.specs.Heading.{header_of, space_header};
ghost use Rattle.space.specs.Sound.{Bounds};
ghost use Rattle.trie.specs.Runs.{Ends, path_cells, path_to};
ghost use Rattle.store.specs.Changes.{form_given};
ghost use Rattle.agreement.specs.Whole.{word_of};
ghost use Rattle.carrying.specs.Recoding.{widening, recoded};
ghost use Rattle.carrying.specs.Copying.{subgoal_given, carry_reply, carry_space};
ghost use Rattle.copying.specs.Clauses.{PathCarried, RecodedAt, with_first, SubgoalsReady, TakesAnswer};
ghost use Rattle.copying.specs.Clauses.{with_answers, AnswersReady, with_states, StatesReady};

use super::EDITION;
use super::tokens::recode;
use answering::answer_at;
use calling::call_at;
use sources::loading::gather;
use space::Head;
use space::fresh::fresh;
use space::heading::read_header;
use space::records::{answer_in, subgoal_in, write_state};
use trie::End;
use trie::ends::{answer_end, subgoal_end};
use trie::paths::CELLS;

// The path that ends here, recoded, in the cells of a whole one: where it starts.
fn recoded_path(source: &[u32], end: End, path: &mut [u32; CELLS]) -> usize
    requires ends { Ends source.now end × PathCarried (path_to source.now end) }
    requires room { length path.old ≡ path_cells }
    ensures { RecodedAt source.now end result path.new }
{
    let k = gather(source, end, path);
    recode(&mut path[k..]);
    k
}

// A subgoal of this form and m variables enters a space of edition 2.
pub fn give_subgoal(target: &mut [u32], form: &[u32], m: usize)
    requires { (space_header target.old ≡ header_of (sizes_of 2) target.old) × (m ≤ 32) }
    ensures { target.new ≡ subgoal_given (sizes_of 2) target.old form.now m (header_of (sizes_of 2) target.old) }
{
    let Ok(h) = read_header(target) else {
        return;
    };
    call_at(target, h, form, m, &[]);
}

// A subgoal of the source, by the end of its path, enters the target.
pub fn carry_subgoal(source: &[u32], end: End, target: &mut [u32], m: usize)
    requires ends { Ends source.now end × PathCarried (path_to source.now end) }
    requires target_value { (space_header target.old ≡ header_of (sizes_of 2) target.old) × (m ≤ 32) }
    ensures { target.new ≡ subgoal_given (sizes_of 2) target.old (recoded widening (word_of (path_to source.now end))) m
        (header_of (sizes_of 2) target.old) }
{
    let mut path = [0u32; CELLS];
    let k = recoded_path(source, end, &mut path);
    give_subgoal(target, &path[k..], m);
}

// All subgoals of the source, by number.
pub fn carry_subgoals(source: &[u32], h: Head, target: &mut [u32])
    requires { Bounds source.now h × SubgoalsReady source.now h target.old }
    ensures { target.new ≡ with_first source.now h target.old h.subgoals }
{
    for i in 0..h.subgoals {
        let g = subgoal_in(source, h, i + 1);
        carry_subgoal(source, subgoal_end(h, g), target, g.variables);
    }
}

// An answer of this form to subgoal s enters a space of edition 2.
pub fn give_answer(target: &mut [u32], s: usize, form: &[u32])
    requires { (space_header target.old ≡ header_of (sizes_of 2) target.old) × TakesAnswer target.old s }
    ensures { target.new ≡ form_given (sizes_of 2) target.old s form.now (header_of (sizes_of 2) target.old) }
{
    let Ok(h) = read_header(target) else {
        return;
    };
    let g = subgoal_in(target, h, s);
    // The cells say it all: whether it is new or refused is not asked.
    let _ = answer_at(target, h, s, g, form, &[], h.nodes);
}

// An answer of the source to subgoal s, by the end of its path, enters the target.
pub fn carry_answer(source: &[u32], end: End, target: &mut [u32], s: usize)
    requires ends { Ends source.now end × PathCarried (path_to source.now end) }
    requires target_value { (space_header target.old ≡ header_of (sizes_of 2) target.old) × TakesAnswer target.old s }
    ensures { target.new ≡ form_given (sizes_of 2) target.old s (recoded widening (word_of (path_to source.now end)))
        (header_of (sizes_of 2) target.old) }
{
    let mut path = [0u32; CELLS];
    let k = recoded_path(source, end, &mut path);
    give_answer(target, s, &path[k..]);
}

// All answers of the source, by number.
pub fn carry_answers(source: &[u32], h: Head, target: &mut [u32])
    requires { Bounds source.now h × AnswersReady source.now h target.old }
    ensures { target.new ≡ with_answers source.now h target.old h.answers }
{
    for i in 0..h.answers {
        let y = answer_in(source, h, i + 1);
        let g = subgoal_in(source, h, y.subgoal);
        carry_answer(source, answer_end(h, g, y), target, y.subgoal);
    }
}

// The states of all subgoals of the source, by number; those of the target begin at an offset.
pub fn carry_states(source: &[u32], h: Head, target: &mut [u32], offset: usize)
    requires { Bounds source.now h × StatesReady source.now h offset (length target.old) }
    ensures { target.new ≡ with_states source.now h offset target.old h.subgoals }
{
    for i in 0..h.subgoals {
        let g = subgoal_in(source, h, i + 1);
        write_state(target, offset, i + 1, g.state as u32, EDITION);
    }
}

// The copy of a source that nothing refuses.
pub fn write(source: &[u32], target: &mut [u32], nodes: u32, subgoals: u32, answers: u32)
    requires { carry_reply nodes subgoals answers source.now target.old ≡ Ok tt }
    ensures { target.new ≡ carry_space nodes subgoals answers source.now target.old }
{
    let Ok(h) = read_header(source) else {
        return;
    };
    // Decided already: nothing refuses it.
    let _ = fresh(target, nodes, subgoals, answers, EDITION);
    carry_subgoals(source, h, target);
    carry_answers(source, h, target);
    let Ok(to) = read_header(target) else {
        return;
    };
    carry_states(source, h, target, to.subgoal_offset);
}
