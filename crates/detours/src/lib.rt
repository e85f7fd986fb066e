// Detours within a budget: one answer for each goal, no diverter twice, least total. The goals are judged first, all of
// them; then the choices are tried in their order, each by two reads.
#![tactic(auto)]

pub mod judging;
pub mod searching;

ghost use Rattle.std.specs.Prelude.{◌≡◌, [], Ok};
ghost use Rattle.plain.specs.Requests.{detours, detoured};
ghost use Rattle.plain.specs.Detours.{detour};
ghost use Rattle.store.specs.Calls.{Answers};
ghost use Rattle.store.specs.Replies.{said_detours};
ghost use Rattle.detours.specs.Searching.{goals_from};
ghost use Rattle.detours.specs.Judging.{Ready};
ghost use Rattle.detours.specs.Finding.{Answerable, detour_in, Decides};

use basis::limits::MOST_GOALS;
use basis::refusals::Refusal;
use judging::{are_numbers, judge_goals};
use searching::{LEFT, NO_TOTAL, TOTAL, WORK_CELLS, search};
use space::tables::Table;
use store::{Detour, Outcome};

// What an answer of a goal offers.
#[derive(Clone, Copy)]
pub struct Offer {
    // The answer.
    pub number: u32,
    // Its diverter, as a cell.
    pub diverter: u32,
    pub minutes: u32,
}

// A goal none of whose records is damaged.
#[derive(Clone, Copy)]
pub struct GoalJudged {
    pub is_open: bool,
    pub fits: bool,
}

// What a search over n goals found, as its cells have it.
fn outcome_in(work: &[u32; WORK_CELLS], n: usize, budget: u32, ended: bool) -> Detour
    requires { Answerable work.now n budget }
    ensures { said_detours (Ok result) ≡ detoured (detour_in work.now n budget ended) }
{
    let tried = budget - work[LEFT];
    if work[TOTAL] == NO_TOTAL {
        return Detour {
            outcome: Outcome::Nothing(tried, ended),
            count: 0,
            numbers: [0; MOST_GOALS],
        };
    }
    Detour {
        outcome: Outcome::Found(work[TOTAL], tried, ended),
        count: n,
        numbers: [work[2], work[3], work[4], work[5], work[6], work[7]],
    }
}

// The search over goals that may be searched.
fn search_goals(table: &Table, goals: &[u32], budget: u32) -> Detour
    requires { Ready table.now goals.now }
    ensures { said_detours (Ok result) ≡ detoured (detour (goals_from table.now goals.now 0) budget) }
{
    let mut work = [0u32; WORK_CELLS];
    work[LEFT] = budget;
    work[TOTAL] = NO_TOTAL;
    let ended = search(table, goals, 0, 0, &mut work);
    outcome_in(&work, goals.len(), budget, ended)
}

// Detours, under a sound header.
fn detours_in(table: &Table, goals: &[u32], budget: u32) -> Result<Detour, Refusal>
    ensures { Decides table.now goals.now budget result }
{
    if !are_numbers(table.head.subgoals, goals) {
        return Err(Refusal::Number);
    }
    judge_goals(table, goals)?;
    Ok(search_goals(table, goals, budget))
}

// One answer for each goal, no diverter twice, least total, within a budget of choices tried.
pub fn detours(space: &[u32], goals: &[u32], budget: u32) -> Result<Detour, Refusal>
    ensures { Answers space.now (detours goals.now budget) (said_detours result) [] space.now }
{
    let table = Table::open(space)?;
    detours_in(&table, goals, budget)
}
