// The line printed for what each call answers, put at the start of a text, without its newline.
#![tactic(auto)]

ghost use Rattle.std.specs.Prelude.{◌≡◌, ◌∷◌, ℕ, ◌+◌, ◌≤◌, ◌<◌, length};
ghost use Rattle.basis.specs.Refusals.{number_of};
ghost use Rattle.plain.specs.Requests.{cells, lacks_next};
ghost use Rattle.store.specs.Replies.{said_state, said_call, said_answer, said_finish, said_next, said_cells};
ghost use Rattle.store.specs.Replies.{said_counts};
ghost use Rattle.store.specs.Replies.{said_because, said_why, NamesIn, NamesHeld};
ghost use Rattle.text.specs.Fields.{space};
ghost use Rattle.text.specs.Digits.{word_and_number, Puts};
ghost use Rattle.replies.specs.Texts.{text_bad, text_refused, state_text, counts_text};
ghost use Rattle.replies.specs.Texts.{reply_text, reply_bytes, text_room, PrintsReply};

use basis::limits::MOST_VARIABLES;
use basis::refusals::Refusal;
use forms::Unwritten;
use store::{CallAnswer, Counts, Entry, Next, Reason, State, Why};
use text::digits::{put, put_cells, put_field, put_numbered};
use text::{CELL_DIGITS, DECIMAL};

// A cell is printed with a space before it.
pub const CELL_BYTES: usize = 1 + CELL_DIGITS;

// Besides the cells of out a reply has fewer bytes than this: numbers, and the variables of a reason.
pub const REPLY_BYTES: usize = 64 + CELL_BYTES * MOST_VARIABLES;

// For a line that means nothing.
pub fn print_bad(text: &mut [u8]) -> usize
    requires { reply_bytes ≤ length text.old }
    ensures { Puts 0 text_bad text.old result text.new }
{
    put(b"bad", text, 0)
}

// A refusal prints its number alone, so one function serves every call.
fn print_refused(refusal: Refusal, text: &mut [u8]) -> usize
    requires { reply_bytes ≤ length text.old }
    ensures { Puts 0 (word_and_number text_refused (number_of refusal)) text.old result text.new }
{
    put_numbered(b"refused", u32::from(refusal), text, 0)
}

// The state stands behind the number of an old subgoal, with its space.
fn put_state(state: State, text: &mut [u8], at: usize) -> usize
    requires { at + 9 < length text.old }
    ensures { Puts at (space ∷ state_text (said_state state)) text.old result text.new }
{
    match state {
        State::Open => put(b" open", text, at),
        State::Finished => put(b" finished", text, at),
    }
}

// Only an old subgoal has its state printed.
pub fn print_call(answer: CallAnswer, text: &mut [u8]) -> usize
    requires { reply_bytes ≤ length text.old }
    ensures { PrintsReply (said_call answer) text.old result text.new }
{
    match answer {
        CallAnswer::New(n) => put_numbered(b"new", n, text, 0),
        CallAnswer::Old(n, state) => {
            let end = put_numbered(b"old", n, text, 0);
            put_state(state, text, end)
        }
        CallAnswer::Refused(r) => print_refused(r, text),
    }
}

// An old answer has no state.
pub fn print_answer(answer: Result<Entry, Refusal>, text: &mut [u8]) -> usize
    requires { reply_bytes ≤ length text.old }
    ensures { PrintsReply (said_answer answer) text.old result text.new }
{
    match answer {
        Ok(Entry::New(n)) => put_numbered(b"new", n, text, 0),
        Ok(Entry::Old(n)) => put_numbered(b"old", n, text, 0),
        Err(r) => print_refused(r, text),
    }
}

// A subgoal that was finished before prints the same.
pub fn print_finish(answer: Result<(), Refusal>, text: &mut [u8]) -> usize
    requires { reply_bytes ≤ length text.old }
    ensures { PrintsReply (said_finish answer) text.old result text.new }
{
    match answer {
        Ok(()) => put(b"done", text, 0),
        Err(r) => print_refused(r, text),
    }
}

// Where no answer is left, the state tells whether one may still come.
fn print_lacking(state: State, text: &mut [u8]) -> usize
    requires { reply_bytes ≤ length text.old }
    ensures { PrintsReply (lacks_next (said_state state)) text.old result text.new }
{
    match state {
        State::Open => put(b"none yet", text, 0),
        State::Finished => put(b"no more", text, 0),
    }
}

// The number of the answer, or that none is left.
pub fn print_next(answer: Result<Next, Refusal>, text: &mut [u8]) -> usize
    requires { reply_bytes ≤ length text.old }
    ensures { PrintsReply (said_next answer) text.old result text.new }
{
    match answer {
        Ok(Next::At(n)) => put_numbered(b"at", n, text, 0),
        Ok(Next::Lacking(state)) => print_lacking(state, text),
        Err(r) => print_refused(r, text),
    }
}

// Nodes, subgoals and answers used, in this order.
fn print_used(used: Counts, text: &mut [u8]) -> usize
    requires { reply_bytes ≤ length text.old }
    ensures { Puts 0 (counts_text used.nodes used.subgoals used.answers) text.old result text.new }
{
    let nodes_end = put_numbered(b"counts", used.nodes, text, 0);
    let subgoals_end = put_field(used.subgoals, DECIMAL, 1, text, nodes_end);
    put_field(used.answers, DECIMAL, 1, text, subgoals_end)
}

// What is used is printed, no capacity.
pub fn print_counts(answer: Result<Counts, Refusal>, text: &mut [u8]) -> usize
    requires { reply_bytes ≤ length text.old }
    ensures { PrintsReply (said_counts answer) text.old result text.new }
{
    match answer {
        Ok(used) => print_used(used, text),
        Err(r) => print_refused(r, text),
    }
}

// Old with the variables as cells, or new with how many leading tokens are shared and by which subgoal.
fn print_reason(why: &Why, text: &mut [u8]) -> usize
    requires { NamesIn why.now.variables why.now.reason × (reply_bytes ≤ length text.old) }
    ensures { PrintsReply (said_because why.now.reason why.now.variables) text.old result text.new }
{
    match why.reason {
        Reason::Old(n, m) => {
            let end = put_numbered(b"old", n, text, 0);
            put_cells(&why.variables[..m], text, end)
        }
        Reason::New(k, s) => {
            let end = put_numbered(b"new", k, text, 0);
            put_field(s, DECIMAL, 1, text, end)
        }
    }
}

// The reason that why gives for a term.
pub fn print_why(answer: Result<Why, Refusal>, text: &mut [u8]) -> usize
    requires { NamesHeld answer × (reply_bytes ≤ length text.old) }
    ensures { PrintsReply (said_why answer) text.old result text.new }
{
    match answer {
        Ok(why) => print_reason(&why, text),
        Err(r) => print_refused(r, text),
    }
}

// The cells printed are those written to out; where out is too short the cells that it would need
// are not printed.
pub fn print_cells(answer: Result<usize, Unwritten>, out: &[u32], text: &mut [u8]) -> usize
    requires out_in_bounds { text_room (length out.now) ≤ length text.old }
    requires by_index { (n : ℕ) → said_cells answer ≡ cells n → n ≤ length out.now }
    ensures { Puts 0 (reply_text (said_cells answer) out.now) text.old result text.new }
{
    match answer {
        Ok(n) => {
            let end = put(b"cells", text, 0);
            put_cells(&out[..n], text, end)
        }
        Err(Unwritten::Refused(r)) => print_refused(r, text),
        Err(Unwritten::Short(_)) => print_refused(Refusal::Out, text),
    }
}
