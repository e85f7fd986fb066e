// The records of a source, one after another: each is judged as load judges it, and its path held to be a form of legal
// terms. Nothing is asked of the first token of a subgoal.
ghost use Rattle.std.specs.Prelude.{◌≡◌, ◌<◌, length};
ghost use Rattle.plain.specs.Coding.{coding_of};
ghost use Rattle.space.specs.Sound.{Bounds, SubgoalUsed, AnswerUsed};
ghost use Rattle.trie.specs.Runs.{path_cells, Ends, GathersWhole};
ghost use Rattle.store.specs.Clauses.{view_in};
ghost use Rattle.agreement.specs.Whole.{every_below};
ghost use Rattle.carrying.specs.Copying.{subgoal_loads, answer_loads};
ghost use Rattle.sources.specs.Records.{count_of, loads_at, RecordOf, PlaceOf};

use super::{Kind, Place, Records};
use path_terms::path_worth;
use space::Head;
use space::records::{answer_in, read_answer, read_subgoal, subgoal_in};
use trie::End;
use trie::ends::{answer_end, subgoal_end};
use trie::paths::{CELLS, LEVELS, few_path, whole_path};

// Does subgoal s load?
fn subgoal_loads(source: &[u32], h: Head, s: usize) -> bool
    requires { SubgoalUsed source.now h s }
    ensures { result ≡ subgoal_loads (coding_of h.edition) (view_in source.now h) s }
{
    let Some(g) = read_subgoal(source, h, s) else {
        return false;
    };
    path_worth(source, subgoal_end(h, g), 1, false, h.edition) == g.variables + 1
}

// Does answer a load?
fn answer_loads(source: &[u32], h: Head, a: usize) -> bool
    requires { AnswerUsed source.now h a }
    ensures { result ≡ answer_loads (coding_of h.edition) (view_in source.now h) a }
{
    let Some(y) = read_answer(source, h, a) else {
        return false;
    };
    let Some(g) = read_subgoal(source, h, y.subgoal) else {
        return false;
    };
    0 < path_worth(source, answer_end(h, g, y), g.variables, false, h.edition)
}

// How many records there are.
pub fn count_of(x: Records) -> usize
    ensures { result ≡ count_of x }
{
    match x.kind {
        Kind::Subgoals => x.h.subgoals,
        Kind::Answers => x.h.answers,
    }
}

// Does the record after i of them load?
fn record_loads(source: &[u32], x: Records, i: usize) -> bool
    requires { Bounds source.now x.h × (i < count_of x) }
    ensures { result ≡ loads_at source.now x i }
{
    match x.kind {
        Kind::Subgoals => subgoal_loads(source, x.h, i + 1),
        Kind::Answers => answer_loads(source, x.h, i + 1),
    }
}

// Do all?
pub fn all_load(source: &[u32], x: Records) -> bool
    requires { Bounds source.now x.h }
    ensures { result ≡ every_below (loads_at source.now x) (count_of x) }
{
    for i in 0..count_of(x) {
        if !record_loads(source, x, i) {
            return false;
        }
    }
    true
}

// Where the form of the record after i of them stands.
pub fn find_record(source: &[u32], x: Records, i: usize) -> Place
    requires { RecordOf source.now x i }
    ensures { PlaceOf source.now x i result }
{
    let h = x.h;
    match x.kind {
        Kind::Subgoals => {
            let g = subgoal_in(source, h, i + 1);
            Place {
                owner: 0,
                end: subgoal_end(h, g),
            }
        }
        Kind::Answers => {
            let y = answer_in(source, h, i + 1);
            let g = subgoal_in(source, h, y.subgoal);
            Place {
                owner: y.subgoal,
                end: answer_end(h, g, y),
            }
        }
    }
}

// The path that ends here, in the cells of a whole one: where it starts.
pub fn gather(source: &[u32], end: End, path: &mut [u32; CELLS]) -> usize
    requires { Ends source.now end × (length path.old ≡ path_cells) }
    ensures { GathersWhole source.now end result path.new }
{
    let mut few = [0u32; LEVELS];
    let begun = few_path(source, end, &mut few);
    whole_path(source, end, begun, &few, path)
}
