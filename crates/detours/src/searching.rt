// The search: for one goal after another each of its answers, in the order of its chain; for each of these the goals
// after it. It works in a few cells that are lent to it, and keeps no list of answers.
//
//   cell     what it holds
//   0        the choices that may still be tried
//   1        the least total so far, or NO_TOTAL
//   2 to 7   the numbers of its answers
//   8 to 13  the answers chosen for the goals so far
//   14 to 19 their diverters
ghost use Rattle.std.specs.Prelude.{◌≡◌, ◌≤◌, ◌<◌, ◌^◌, length};
ghost use Rattle.detours.specs.Searching.{work_cells, among, diverters_in, Copyable, Copied, Keepable, Keeps};
ghost use Rattle.detours.specs.Searching.{Readable, offer_at, Lookable, Looks, Searchable, Searches};

use super::Offer;
use basis::limits::MOST_GOALS;
use basis::wide;
use forms::payload_of;
use space::tables::Table;

pub const LEFT: usize = 0;

pub const TOTAL: usize = 1;

const BEST: usize = 2;

const NUMBERS: usize = BEST + MOST_GOALS;

const DIVERTERS: usize = NUMBERS + MOST_GOALS;

pub const WORK_CELLS: usize = DIVERTERS + MOST_GOALS;
// Above every total: six times the most minutes are fewer. A number, since it stands in a cell beside the totals.
pub const NO_TOTAL: u32 = 4294967295;

// Was the diverter chosen for one of the first goals?
fn is_taken(work: &[u32; WORK_CELLS], goals: usize, diverter: u32) -> bool
    requires { (goals ≤ 6) × (length work.now ≡ work_cells) }
    ensures { result ≡ among diverter (diverters_in work.now goals) }
{
    // By hand: `contains` is a call for each choice tried, by which a search took 1.35 of the time.
    for i in (0..goals).rev() {
        if work[DIVERTERS + i] == diverter {
            return true;
        }
    }
    false
}

// The answers chosen for n goals become those of the least total.
fn copy_numbers(work: &mut [u32; WORK_CELLS], n: usize)
    requires { Copyable work.old n }
    ensures { Copied work.old n work.new }
{
    work.copy_within(NUMBERS..NUMBERS + n, BEST);
}

// Answers were chosen for all n goals: they are kept if their total is below the least so far.
fn keep(work: &mut [u32; WORK_CELLS], n: usize, total: u32)
    requires { Keepable work.old n total }
    ensures { Keeps work.old n total work.new }
{
    if total < work[TOTAL] {
        work[TOTAL] = total;
        copy_numbers(work, n);
    }
}

// What answer a offers, by its leaf: the minutes stand there, the diverter above it.
fn offer_in(table: &Table, a: usize, leaf: usize) -> Offer
    requires { Readable table.now a leaf }
    ensures { result ≡ offer_at table.now a leaf }
{
    let last = table.node(leaf);
    let first = table.node(last.parent);
    Offer {
        number: a as u32,
        diverter: first.token,
        minutes: payload_of(last.token) as u32,
    }
}

// One choice for a goal, where the minutes chosen before it are a sum. False where it may not be tried, or where one
// after it may not.
#[cycle(search_try_offer)]
fn try_offer(
    table: &Table,
    goals: &[u32],
    at: usize,
    sum: u32,
    offer: Offer,
    work: &mut [u32; WORK_CELLS],
) -> bool
    requires { Searchable table.now goals.now at sum work.old × Lookable offer }
    ensures { Looks table.now goals.now at sum offer work.old work.new result }
{
    if work[LEFT] == 0 {
        return false;
    }
    work[LEFT] -= 1;
    if is_taken(work, at, offer.diverter) {
        return true;
    }
    work[NUMBERS + at] = offer.number;
    work[DIVERTERS + at] = offer.diverter;
    let total = sum + offer.minutes;
    if at + 1 == goals.len() {
        keep(work, at + 1, total);
        return true;
    }
    search(table, goals, at + 1, total, work)
}

// The choices for the goal at a place and for those after it. False where the budget ended the search.
#[cycle(search_try_offer)]
pub fn search(
    table: &Table,
    goals: &[u32],
    at: usize,
    sum: u32,
    work: &mut [u32; WORK_CELLS],
) -> bool
    requires { Searchable table.now goals.now at sum work.old }
    ensures { Searches table.now goals.now at sum work.old work.new result }
{
    let g = table.subgoal(wide(goals[at]));
    let mut a = g.first;
    while a != 0 {
        let y = table.answer(a);
        let offer = offer_in(table, a, y.leaf);
        if !try_offer(table, goals, at, sum, offer, work) {
            return false;
        }
        a = y.next;
    }
    true
}
