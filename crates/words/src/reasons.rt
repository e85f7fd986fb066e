// The result word of what why answers, and its cells in out.
ghost use Rattle.std.specs.Prelude.{◌≤◌, length};
ghost use Rattle.store.specs.Replies.{said_because, said_why_by, NamesIn, WhyNamesHeld};
ghost use Rattle.words.specs.Told.{ErrTold};
ghost use Rattle.words.specs.Why.{why_room, GivesVariables, GivesReason};

use super::{refusal_with, refusal_word, result_word};
use basis::limits::MOST_VARIABLES;
use basis::refusals::{Numbered, Refusal};
use convert::copy;
use store::{Reason, Why};

// The numbers are the C interface's.
const WHY_OLD: u32 = 12;

const WHY_NEW: u32 = 13;

// So many cells of out always suffice: a count, and as many variables as a term may have.
const WHY_CELLS: usize = 1 + MOST_VARIABLES;

// So many variables, with their number before them. (The first m of a Why, whose array has one length: no heap.)
fn give_variables(variables: &[u32], m: usize, out: &mut [u32])
    requires { (m ≤ length variables.now) × (m ≤ 32) × (why_room ≤ length out.old) }
    ensures { GivesVariables variables.now m out.old out.new }
{
    copy(variables, m, &mut out[1..]);
    out[0] = m as u32;
}

// The subgoal is the word's value. For old the variables go to out with their number before them, for new the number of
// leading tokens shared.
fn give_because(why: &Why, out: &mut [u32]) -> u64
    requires { NamesIn why.now.variables why.now.reason }
    ensures { GivesReason (said_because why.now.reason why.now.variables) out.old result out.new }
{
    if out.len() < WHY_CELLS {
        return refusal_with(Refusal::Out, WHY_CELLS as u32);
    }
    match why.reason {
        Reason::Old(s, m) => {
            give_variables(&why.variables, m, out);
            result_word(WHY_OLD, s)
        }
        Reason::New(n, s) => {
            out[0] = n;
            result_word(WHY_NEW, s)
        }
    }
}

// The word of what why answers; out is judged after all else.
pub fn give_reason<R: Numbered>(answer: Result<Why, R>, out: &mut [u32]) -> u64
    requires told { ErrTold R.told answer }
    requires held { WhyNamesHeld answer }
    ensures { GivesReason (said_why_by R.number answer) out.old result out.new }
{
    match answer {
        Ok(why) => give_because(&why, out),
        Err(r) => refusal_word(r),
    }
}
