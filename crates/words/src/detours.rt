// The result word of a search for detours, and what it leaves in out.
ghost use Rattle.std.specs.Prelude.{◌∷◌, ◌≡◌, ◌≤◌, min, length, take, drop};
ghost use Rattle.basis.specs.Choice.{pick};
ghost use Rattle.store.specs.Replies.{said_outcome, said_detours_by};
ghost use Rattle.words.specs.Detours.{NumbersStand, SaysDetours};
ghost use Rattle.words.specs.Told.{ErrTold};

use super::{refusal_with, refusal_word, result_word};
use basis::limits::MOST_GOALS;
use basis::refusals::{Numbered, Refusal};
use convert::copy;
use store::{Detour, Outcome};

// A total was found, which is the value; or none was. The numbers are the C interface's.
const DETOUR: u32 = 14;

const NO_DETOUR: u32 = 15;

// The choices tried, whether the search ended, and a number for each goal.
const DETOUR_CELLS: usize = 2 + MOST_GOALS;

// What is told of every search.
fn write_progress(tried: u32, ended: bool, out: &mut [u32])
    requires { 2 ≤ length out.old }
    ensures { out.new ≡ tried ∷ pick ended 1 0 ∷ drop 2 out.old }
{
    out[0] = tried;
    out[1] = u32::from(ended);
}

// The first numbers, after that.
fn write_numbers(numbers: &[u32; MOST_GOALS], count: usize, out: &mut [u32])
    requires { 8 ≤ length out.old }
    ensures { NumbersStand numbers.now count out.old out.new }
{
    copy(numbers, count.min(MOST_GOALS), &mut out[2..]);
}

// The word of what a search came to, and its cells.
fn give_detour(detour: &Detour, out: &mut [u32]) -> u64
    ensures { SaysDetours (said_outcome detour.now.outcome (take detour.now.count detour.now.numbers)) result out.old
        out.new }
{
    if out.len() < DETOUR_CELLS {
        return refusal_with(Refusal::Out, DETOUR_CELLS as u32);
    }
    match detour.outcome {
        Outcome::Found(total, tried, ended) => {
            write_progress(tried, ended, out);
            write_numbers(&detour.numbers, detour.count, out);
            result_word(DETOUR, total)
        }
        Outcome::Nothing(tried, ended) => {
            write_progress(tried, ended, out);
            result_word(NO_DETOUR, 0)
        }
    }
}

// The word of what detours answers; out is judged after all else.
pub fn detours_result<R: Numbered>(answer: Result<Detour, R>, out: &mut [u32]) -> u64
    requires { ErrTold R.told answer }
    ensures { SaysDetours (said_detours_by R.number answer) result out.old out.new }
{
    match answer {
        Ok(detour) => give_detour(&detour, out),
        Err(r) => refusal_word(r),
    }
}
