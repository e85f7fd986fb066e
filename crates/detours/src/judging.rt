// The goals judged, each as a join's source is, and whether its answers are an atom and an integer.
ghost use Rattle.std.specs.Prelude.{◌≡◌, true, ◌&&◌, ◌||◌, ◌≤◌};
ghost use Rattle.plain.specs.Detours.{all_within};
ghost use Rattle.space.specs.Sound.{subgoal_under};
ghost use Rattle.trie.specs.Runs.{Ends, path_to};
ghost use Rattle.sides.specs.Chains.{PathJudged};
ghost use Rattle.detours.specs.Judging.{offer_path, fit_path, fits, AnswersJudged};
ghost use Rattle.detours.specs.Judging.{GoalTold, ruled, GoalsTold};

use super::GoalJudged;
use basis::limits::MOST_GOALS;
use basis::refusals::Refusal;
use basis::wide;
use forms::{is_atom, is_integer};
use path_terms::path_worth;
use sides::chains::judge_all;
use space::Subgoal;
use space::records::read_rising_node;
use space::tables::Table;
use trie::End;

// Is the path an atom and an integer? Three nodes tell.
fn is_offer(space: &[u32], end: End) -> bool
    requires { Ends space.now end }
    ensures { result ≡ offer_path (path_to space.now end) }
{
    let Some(last) = read_rising_node(space, end.nodes, end.links, end.leaf) else {
        return false;
    };
    if last.parent == end.leaf {
        return false;
    }
    let Some(first) = read_rising_node(space, end.nodes, end.links, last.parent) else {
        return false;
    };
    if first.parent == last.parent {
        return false;
    }
    let Some(root) = read_rising_node(space, end.nodes, end.links, first.parent) else {
        return false;
    };
    if root.parent != first.parent || first.parent != end.root {
        return false;
    }
    is_atom(first.token) && is_integer(last.token)
}

// The same for an answer to a subgoal of m variables, which must be two.
fn is_fit(space: &[u32], end: End, m: usize) -> bool
    requires { Ends space.now end }
    ensures { result ≡ fit_path m (path_to space.now end) }
{
    m == 2 && is_offer(space, end)
}

// Does the path of an answer to a subgoal of m variables fit? Nothing where it is damaged. One that fits is legal, and
// nothing else is to be read of it.
fn judge_path(space: &[u32], end: End, m: usize, edition: u32) -> Option<bool>
    requires { Ends space.now end }
    ensures { PathJudged (fits edition m) edition (path_to space.now end) m result }
{
    if is_fit(space, end, m) {
        return Some(true);
    }
    if path_worth(space, end, m, false, edition) == 0 {
        return None;
    }
    Some(false)
}

// Do all answers of subgoal s fit, whose record is g? Nothing where one is damaged.
fn judge_answers(table: &Table, s: usize, g: Subgoal) -> Option<bool>
    requires is { g ≡ subgoal_under table.now.cells.now table.now.head s }
    requires first_le_answers { g.first ≤ table.now.head.answers }
    ensures { AnswersJudged table.now s result }
{
    let fitting = |end| judge_path(table.cells, end, g.variables, table.head.edition);
    let all = judge_all(table, s, g, fitting)?;
    Some(g.variables == 2 && all)
}

// Subgoal s as a goal: its record, then its answers; nothing where one is damaged.
fn judge_goal(table: &Table, s: usize) -> Option<GoalJudged>
    requires { (1 ≤ s) × (s ≤ table.now.head.subgoals) }
    ensures { GoalTold table.now s result }
{
    let g = table.read_subgoal(s)?;
    let fits = judge_answers(table, s, g)?;
    Some(GoalJudged {
        is_open: g.state == 0,
        fits,
    })
}

// What n goals come to by their states and their answers.
fn ruling(opened: bool, fit: bool, n: usize) -> Result<(), Refusal>
    ensures { result ≡ ruled opened fit n }
{
    if opened {
        return Err(Refusal::SourceOpen);
    }
    if n == 0 || MOST_GOALS < n || !fit {
        return Err(Refusal::Goals);
    }
    Ok(())
}

// Are all goals numbers of subgoals?
pub fn are_numbers(subgoals: usize, goals: &[u32]) -> bool
    ensures { result ≡ all_within subgoals goals.now }
{
    for goal in goals {
        let s = wide(*goal);
        if s == 0 || subgoals < s {
            return false;
        }
    }
    true
}

// Judges goals that are numbers of subgoals. What is damaged comes before all else, so every goal is judged.
pub fn judge_goals(table: &Table, goals: &[u32]) -> Result<(), Refusal>
    requires { all_within table.now.head.subgoals goals.now ≡ true }
    ensures { GoalsTold table.now goals.now result }
{
    let mut opened = false;
    let mut fit = true;
    for goal in goals {
        let judged = judge_goal(table, wide(*goal)).ok_or(Refusal::Records)?;
        opened |= judged.is_open;
        fit &= judged.fits;
    }
    ruling(opened, fit, goals.len())
}
