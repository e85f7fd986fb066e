// Each call of a session: its fields are read, the call is made, and its answer is put into a text.
#![tactic(auto)]

ghost use Rattle.std.specs.Prelude.{◌≡◌};
ghost use Rattle.asking.specs.Asking.{Askable, AskableCells, AskableOut};
ghost use Rattle.asking.specs.Asking.{Asks, AsksReading};
ghost use Rattle.asking.specs.Asking.{call_meant, answer_meant, finish_meant, next_meant, counts_meant, why_meant};
ghost use Rattle.asking.specs.Asking.{lent_said, LentPrints};
ghost use Rattle.asking.specs.Lines.{means_load, means_instance};

use answering::answer;
use calling::{call, finish};
use reads::{counts, instance, load, next};
use reasons::why;
use replies::{
    CELL_BYTES, print_answer, print_bad, print_call, print_cells, print_counts, print_finish,
    print_next, print_why,
};
use text::fields::{first_number, only_number, read_cells};

// A line that means something has at most so many bytes, its newline not counted.
pub const LONGEST_LINE: usize = 4096;

// Cells for all that the longest line has room for.
const LINE_CELLS: usize = LONGEST_LINE / CELL_BYTES + 1;

// call, with cells.
pub fn ask_call(line: &[u8], at: usize, space: &mut [u32], text: &mut [u8]) -> usize
    requires { AskableCells line.now at text.old }
    ensures { Asks (call_meant line.now at) space.old text.old result text.new space.new }
{
    let mut cells = [0u32; LINE_CELLS];
    let Some(n) = read_cells(line, at, &mut cells) else {
        return print_bad(text);
    };
    let answered = call(space, &cells[..n]);
    print_call(answered, text)
}

// answer, with a number and cells.
pub fn ask_answer(line: &[u8], at: usize, space: &mut [u32], text: &mut [u8]) -> usize
    requires { AskableCells line.now at text.old }
    ensures { Asks (answer_meant line.now at) space.old text.old result text.new space.new }
{
    let Some(subgoal) = first_number(line, at) else {
        return print_bad(text);
    };
    let mut cells = [0u32; LINE_CELLS];
    let Some(n) = read_cells(line, subgoal.end, &mut cells) else {
        return print_bad(text);
    };
    let answered = answer(space, subgoal.value, &cells[..n]);
    print_answer(answered, text)
}

// finish, with a number.
pub fn ask_finish(line: &[u8], at: usize, space: &mut [u32], text: &mut [u8]) -> usize
    requires { Askable line.now at text.old }
    ensures { Asks (finish_meant line.now at) space.old text.old result text.new space.new }
{
    let Some(subgoal) = only_number(line, at) else {
        return print_bad(text);
    };
    let finished = finish(space, subgoal.value);
    print_finish(finished, text)
}

// next, with two numbers.
pub fn ask_next(line: &[u8], at: usize, space: &[u32], text: &mut [u8]) -> usize
    requires { Askable line.now at text.old }
    ensures { AsksReading (next_meant line.now at) space.now text.old result text.new }
{
    let Some(subgoal) = first_number(line, at) else {
        return print_bad(text);
    };
    let Some(after) = only_number(line, subgoal.end) else {
        return print_bad(text);
    };
    let handed = next(space, subgoal.value, after.value);
    print_next(handed, text)
}

// load, with a number. What was written to out is printed.
// Not one generic function with `ask_instance`: its clauses over `F.post`, of three arguments, outgrow these steps.
pub fn ask_load(line: &[u8], at: usize, space: &[u32], out: &mut [u32], text: &mut [u8]) -> usize
    requires { AskableOut line.now at out.old text.old }
    ensures load_prints { LentPrints means_load line.now at space.now out.old text.old result text.new }
    ensures out_value { out.new ≡ (lent_said means_load line.now at space.now out.old).out }
{
    let Some(number) = only_number(line, at) else {
        return print_bad(text);
    };
    let loaded = load(space, number.value, out);
    print_cells(loaded, out, text)
}

// instance, with a number. What was written to out is printed.
pub fn ask_instance(
    line: &[u8],
    at: usize,
    space: &[u32],
    out: &mut [u32],
    text: &mut [u8],
) -> usize
    requires { AskableOut line.now at out.old text.old }
    ensures instance_prints { LentPrints means_instance line.now at space.now out.old text.old result text.new }
    ensures out_value { out.new ≡ (lent_said means_instance line.now at space.now out.old).out }
{
    let Some(number) = only_number(line, at) else {
        return print_bad(text);
    };
    let made = instance(space, number.value, out);
    print_cells(made, out, text)
}

// why, with cells.
pub fn ask_why(line: &[u8], at: usize, space: &[u32], text: &mut [u8]) -> usize
    requires { AskableCells line.now at text.old }
    ensures { AsksReading (why_meant line.now at) space.now text.old result text.new }
{
    let mut cells = [0u32; LINE_CELLS];
    let Some(n) = read_cells(line, at, &mut cells) else {
        return print_bad(text);
    };
    let told = why(space, &cells[..n]);
    print_why(told, text)
}

// counts, with no field: the line ends behind the word.
pub fn ask_counts(line: &[u8], at: usize, space: &[u32], text: &mut [u8]) -> usize
    requires { Askable line.now at text.old }
    ensures { AsksReading (counts_meant line.now at) space.now text.old result text.new }
{
    if at < line.len() {
        return print_bad(text);
    }
    let used = counts(space);
    print_counts(used, text)
}
