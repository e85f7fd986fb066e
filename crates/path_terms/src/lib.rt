// The paths of an answer and of its subgoal, gathered and loaded, or put together to an instance; and whether a path is
// a legal form, for the crates that judge paths without loading them. A path is gathered in the few cells that suffice
// for most; only a longer one gets the cells of a whole path, since each is cleared first. Every task goes on from
// there by one function, so that this choice is made in one place.
#![tactic(auto)]

ghost use Rattle.std.specs.Prelude.{◌≡◌};
ghost use Rattle.convert.specs.Holds.{RoomForTerms};
ghost use Rattle.plain.specs.Coding.{predicate};
ghost use Rattle.trie.specs.Runs.{Ends, path_to};
ghost use Rattle.path_terms.specs.AlongPaths.{form_worth, worth, LoadsOf, LoadsTo, InstancesTo};
ghost use Rattle.path_terms.specs.Tasks.{BothBegun, Done, DoneTo};

use convert::buffers::with_terms;
use convert::{expand_terms, load_counted};
use forms::{Unwritten, is_callable};
use instances::instance_path;
use trie::End;
use trie::paths::{CELLS, LEVELS, few_path, whole_path};

// What paths are gathered for: the terms of an answer, its instance, or what a path is worth, that of an answer or of a
// subgoal, which is called. Each caller gives a constant: so the compiler can make a copy of `use_begun` for each,
// without the other tasks.
#[derive(Clone, Copy)]
enum Task {
    Load,
    Instance,
    Judge,
    Called,
}

// The ends of an answer's path and of its subgoal's, what gathering each in few cells came to, and how many terms the
// answer has. Where there is one path, it stands twice.
#[derive(Clone, Copy)]
pub struct Paths {
    pub end: End,
    pub begun: usize,
    pub subgoal: End,
    pub above: usize,
    pub m: usize,
    pub edition: u32,
}

// Does the form begin with an atom or a functor?
fn begins(form: &[u32]) -> bool
    ensures { result ≡ predicate form.now }
{
    form.len() != 0 && is_callable(form[0])
}

// What a gathered path is worth as the form of m legal terms: one more than its variables, or 0 where it is none, or
// where it is to be called and is no predicate's. The buffer is long enough for the terms.
// A plain number: with an enum the check of a space took up to 1.28 times as long (docs/DECISIONS.md).
fn form_worth_with(form: &[u32], m: usize, called: bool, cells: &mut [u32], edition: u32) -> usize
    requires { RoomForTerms form.now cells.old }
    ensures { result ≡ form_worth edition m called form.now }
{
    let Some(loaded) = load_counted(form, m, cells, edition) else {
        return 0;
    };
    if called && !begins(form) {
        return 0;
    }
    loaded.variables + 1
}

// The same with a buffer of its own. Short forms get short ones.
fn form_worth(form: &[u32], m: usize, called: bool, edition: u32) -> usize
    ensures { result ≡ form_worth edition m called form.now }
{
    let mut worth = |cells: &mut [u32]| form_worth_with(form, m, called, cells, edition);
    with_terms(form.len(), &mut worth)
}

// Loads the form of m terms: one more than their cells, which are written where there is room for them; 0 for what is
// no legal form. A number, as `form_worth` is.
// A plain number, as an instance gives, since `use_begun` answers for every task.
fn load_form(form: &[u32], m: usize, out: &mut [u32], edition: u32) -> usize
    ensures { LoadsOf form.now m edition out.old result out.new }
{
    match expand_terms(&form[..], m, out, edition) {
        Ok(n) => n + 1,
        Err(Unwritten::Short(n)) => n + 1,
        Err(Unwritten::Refused(_)) => 0,
    }
}

// A task is done with paths that were begun in few cells, in those of whole paths. Who uses a path is called here and
// in `use_begun`, and not in a function for both: the compiler would put all three users into that one, and
// `use_begun` with it would be too long to be copied for each task.
fn use_long(
    task: Task,
    space: &[u32],
    x: Paths,
    few: &[u32; LEVELS],
    called: &[u32; LEVELS],
    out: &mut [u32],
) -> usize
    requires { BothBegun space.now x few.now called.now }
    ensures { DoneTo task space.now x out.old result out.new }
{
    let mut path = [0u32; CELLS];
    let k = whole_path(space, x.end, x.begun, few, &mut path);
    if k == 0 {
        return 0;
    }
    match task {
        Task::Load => load_form(&path[k..], x.m, out, x.edition),
        Task::Judge | Task::Called => {
            form_worth(&path[k..], x.m, matches!(task, Task::Called), x.edition)
        }
        Task::Instance => {
            let mut above = [0u32; CELLS];
            let j = whole_path(space, x.subgoal, x.above, called, &mut above);
            if j == 0 {
                return 0;
            }
            instance_path(&above[j..], &path[k..], x.m, out, x.edition)
        }
    }
}

// A task is done with paths that were begun in few cells: in these where they hold them. The choice between few cells
// and those of a whole path stands here alone. It calls `use_long` at two places: called at one, that would be copied
// in, and this function be too long to be copied for each task.
fn use_begun(
    task: Task,
    space: &[u32],
    x: Paths,
    few: &[u32; LEVELS],
    called: &[u32; LEVELS],
    out: &mut [u32],
) -> usize
    requires { BothBegun space.now x few.now called.now }
    ensures { DoneTo task space.now x out.old result out.new }
{
    if LEVELS < x.begun {
        return use_long(task, space, x, few, called, out);
    }
    let path = &few[..];
    let k = x.begun;
    match task {
        Task::Load => load_form(&path[k..], x.m, out, x.edition),
        Task::Judge | Task::Called => {
            form_worth(&path[k..], x.m, matches!(task, Task::Called), x.edition)
        }
        Task::Instance => {
            if LEVELS < x.above {
                return use_long(task, space, x, few, called, out);
            }
            let above = &called[..];
            let j = x.above;
            instance_path(&above[j..], &path[k..], x.m, out, x.edition)
        }
    }
}

// A task with one path, from its leaf up.
fn use_one(task: Task, space: &[u32], end: End, m: usize, out: &mut [u32], edition: u32) -> usize
    requires { Ends space.now end }
    ensures { Done task edition (path_to space.now end) (path_to space.now end) m out.old result out.new }
{
    let mut few = [0u32; LEVELS];
    let begun = few_path(space, end, &mut few);
    let x = Paths {
        end,
        begun,
        subgoal: end,
        above: begun,
        m,
        edition,
    };
    use_begun(task, space, x, &few, &few, out)
}

// What a path is worth, from its leaf up; a damaged one is worth 0.
pub fn path_worth(space: &[u32], end: End, m: usize, called: bool, edition: u32) -> usize
    requires { Ends space.now end }
    ensures { result ≡ worth edition m called (path_to space.now end) }
{
    let mut none: [u32; 0] = [];
    if called {
        return use_one(Task::Called, space, end, m, &mut none, edition);
    }
    use_one(Task::Judge, space, end, m, &mut none, edition)
}

// The terms of an answer, by its path from the leaf up.
pub fn load_path(space: &[u32], end: End, m: usize, out: &mut [u32], edition: u32) -> usize
    requires { Ends space.now end }
    ensures { LoadsTo space.now end m edition out.old result out.new }
{
    use_one(Task::Load, space, end, m, out, edition)
}

// The instance of an answer, by its path and its subgoal's from the leaves up.
pub fn instance_paths(
    space: &[u32],
    end: End,
    subgoal: End,
    m: usize,
    out: &mut [u32],
    edition: u32,
) -> usize
    requires { Ends space.now end × Ends space.now subgoal }
    ensures { InstancesTo space.now end subgoal m edition out.old result out.new }
{
    let mut few = [0u32; LEVELS];
    let begun = few_path(space, end, &mut few);
    let mut called = [0u32; LEVELS];
    let above = few_path(space, subgoal, &mut called);
    let x = Paths {
        end,
        begun,
        subgoal,
        above,
        m,
        edition,
    };
    use_begun(Task::Instance, space, x, &few, &called, out)
}
