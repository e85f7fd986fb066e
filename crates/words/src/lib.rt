// The result word of each answer: what was answered in its upper half, the value in its lower.
#![tactic(auto)]

pub mod detours;
pub mod listings;
pub mod reasons;

ghost use Rattle.std.specs.Prelude.{◌≡◌, ◌+◌, ◌^◌, ◌<◌, ◌≤◌};
ghost use Rattle.basis.specs.Refusals.{number_of};
ghost use Rattle.plain.specs.Requests as request;
ghost use Rattle.store.specs.Replies.{said_state, said_call_by, said_answer_by, said_finish_by, said_next_by};
ghost use Rattle.store.specs.Replies.{said_join_by, said_cells_by};
ghost use Rattle.integrity.specs.Tests.{said_check};
ghost use Rattle.indexing.specs.Parts.{said_build_by};
ghost use Rattle.words.specs.Words.{worded, word, broken_record, word_check, word_build};
ghost use Rattle.words.specs.Bounded.{FaultBounded};
ghost use Rattle.words.specs.Told.{ErrTold, CallTold, UnwrittenTold, CellsBounded};

use basis::refusals::{Numbered, Refusal};
use forms::Unwritten;
use integrity::Broken;
use store::{CallAnswer, Entry, Next, State};

// ---- what was answered: the upper half of a result word; REFUSED is added to the refusal's number
// Numbers, since they are the C interface (the definition `word`).

const DONE: u32 = 0;

const NEW: u32 = 1;

const OLD: u32 = 2;

const OLD_OPEN: u32 = 3;

const OLD_FINISHED: u32 = 4;

const AT: u32 = 5;

const NONE_YET: u32 = 6;

const CELLS: u32 = 7;

pub const COUNTS: u32 = 8;

const NO_MORE: u32 = 9;

const JOINED: u32 = 10;

const BUILT: u32 = 11;

pub const REFUSED: u32 = 256;

// ---- a broken record in the lower half: its kind, above the numbers that a record may have
// Of the C interface too (the definition `word_check`).

const BROKEN_NODE: u32 = 1;

const BROKEN_SUBGOAL: u32 = 2;

const BROKEN_ANSWER: u32 = 3;

const NUMBERS: u32 = 268435456;

// ---- result words

// A unit of the upper half.
const UPPER: u64 = 4294967296;

// What was answered in the upper half, its value in the lower; two cells always fit a word.
pub fn result_word(what: u32, value: u32) -> u64
    ensures { result ≡ worded what value }
{
    u64::from(what) * UPPER + u64::from(value)
}

// The word of a refusal with a value: of an out that is too short, or a broken record.
pub fn refusal_with(r: Refusal, value: u32) -> u64
    ensures { result ≡ worded (256 + number_of r) value }
{
    result_word(REFUSED + u32::from(r), value)
}

// The word of a refusal without one. Here and below a refusal may also be given by its number alone.
pub fn refusal_word<R: Numbered>(r: R) -> u64
    requires { R.told r }
    ensures { result ≡ word (request.refused (R.number r)) }
{
    result_word(REFUSED + r.number(), 0)
}

// For fresh, a copy, a growth and finish: done, whether or not a subgoal was finished before; or refused.
pub fn done_word<R: Numbered>(answer: Result<(), R>) -> u64
    requires { ErrTold R.told answer }
    ensures { result ≡ word (said_finish_by R.number answer) }
{
    if let Err(r) = answer {
        return refusal_word(r);
    }
    result_word(DONE, 0)
}

// A subgoal that was there before: its state is told by the upper half, so its number keeps the lower.
fn old_word(n: u32, state: State) -> u64
    ensures { result ≡ word (request.old_subgoal n (said_state state)) }
{
    match state {
        State::Open => result_word(OLD_OPEN, n),
        State::Finished => result_word(OLD_FINISHED, n),
    }
}

// The number is that of a subgoal.
pub fn call_word<R: Numbered>(answer: CallAnswer<R>) -> u64
    requires { CallTold R.told answer }
    ensures { result ≡ word (said_call_by R.number answer) }
{
    match answer {
        CallAnswer::New(n) => result_word(NEW, n),
        CallAnswer::Old(n, state) => old_word(n, state),
        CallAnswer::Refused(r) => refusal_word(r),
    }
}

// The number is that of an answer; an old one has no state.
pub fn answer_word<R: Numbered>(answer: Result<Entry, R>) -> u64
    requires { ErrTold R.told answer }
    ensures { result ≡ word (said_answer_by R.number answer) }
{
    match answer {
        Ok(Entry::New(n)) => result_word(NEW, n),
        Ok(Entry::Old(n)) => result_word(OLD, n),
        Err(r) => refusal_word(r),
    }
}

// That none is left is no refusal: it has a word for each state.
fn lacking_word(state: State) -> u64
    ensures { result ≡ word (request.lacks_next (said_state state)) }
{
    match state {
        State::Open => result_word(NONE_YET, 0),
        State::Finished => result_word(NO_MORE, 0),
    }
}

// The number is that of an answer, and never 0.
pub fn next_word<R: Numbered>(answer: Result<Next, R>) -> u64
    requires { ErrTold R.told answer }
    ensures { result ≡ word (said_next_by R.number answer) }
{
    match answer {
        Ok(Next::At(n)) => result_word(AT, n),
        Ok(Next::Lacking(state)) => lacking_word(state),
        Err(r) => refusal_word(r),
    }
}

// The value is a count, and 0 where nothing is new.
pub fn join_word<R: Numbered>(answer: Result<u32, R>) -> u64
    requires { ErrTold R.told answer }
    ensures { result ≡ word (said_join_by R.number answer) }
{
    match answer {
        Ok(n) => result_word(JOINED, n),
        Err(r) => refusal_word(r),
    }
}

// For load and instance: the cells written, or with 12 the cells needed. Neither count passes 256 * 257.
pub fn cells_word<R: Numbered>(answer: Result<usize, Unwritten<R>>) -> u64
    requires told { UnwrittenTold R.told answer }
    requires few { CellsBounded answer }
    ensures { result ≡ word (said_cells_by R.number answer) }
{
    match answer {
        Ok(n) => result_word(CELLS, n as u32),
        Err(Unwritten::Short(n)) => refusal_with(Refusal::Out, n as u32),
        Err(Unwritten::Refused(r)) => refusal_word(r),
    }
}

// The word of a broken record, which the check refuses by 9.
fn broken_word(kind: u32, number: u32) -> u64
    requires { (kind ≤ 3) × (number < 2 ^ 28) }
    ensures { result ≡ worded (256 + 9) (broken_record kind number) }
{
    refusal_with(Refusal::Records, kind * NUMBERS + number)
}

// The space is whole, or what is broken first in it.
pub fn check_word(answer: Result<(), Broken>) -> u64
    requires { FaultBounded (said_check answer) }
    ensures { result ≡ word_check (said_check answer) }
{
    match answer {
        Ok(()) => result_word(DONE, 0),
        Err(Broken::Header) => refusal_word(Refusal::Header),
        Err(Broken::Node(n)) => broken_word(BROKEN_NODE, n),
        Err(Broken::Subgoal(s)) => broken_word(BROKEN_SUBGOAL, s),
        Err(Broken::Answer(a)) => broken_word(BROKEN_ANSWER, a),
    }
}

// The value is the number of children entered.
pub fn build_word<R: Numbered>(answer: Result<u32, R>) -> u64
    requires { ErrTold R.told answer }
    ensures { result ≡ word_build (said_build_by R.number answer) }
{
    match answer {
        Ok(n) => result_word(BUILT, n),
        Err(r) => refusal_word(r),
    }
}
