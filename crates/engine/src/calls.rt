// Fresh, carrying over and growing, the calls, those of them that search with an index, the check and the build of an
// index as C functions over the machine's own cells, each with one result word.
ghost use Rattle.std.specs.Prelude.{[]};
ghost use Rattle.plain.specs.Requests as request;
ghost use Rattle.words.specs.Words.{ReturnsFresh, Returns, ReturnsIndexed, ReturnsCounts, ReturnsCheck};
ghost use Rattle.words.specs.Words.{ReturnsBuild, ReturnsCarry, ReturnsGrow};
ghost use Rattle.words.specs.Why.{ReturnsWhy, ReturnsWhyIndexed};

use basis::refusals::Refusal;
use words::reasons::give_reason;
use words::{
    COUNTS, answer_word, build_word, call_word, cells_word, check_word, done_word, join_word,
    next_word, refusal_with, refusal_word, result_word,
};

// ---- fresh, and the calls that write

// Makes a space of an edition with these capacities; refused, it stays as it was.
#[unsafe(no_mangle)]
pub extern "C" fn tables_fresh(
    space: &mut [u32],
    nodes: u32,
    subgoals: u32,
    answers: u32,
    edition: u32,
) -> u64
    ensures { ReturnsFresh edition nodes subgoals answers space.old result space.new }
{
    done_word(space::fresh::fresh(space, nodes, subgoals, answers, edition))
}

// Copies a space of edition 1 into one of edition 2 with these capacities: the same subgoals, answers and states by
// number. Refused, the target stays as it was.
#[unsafe(no_mangle)]
pub extern "C" fn tables_carry(
    source: &[u32],
    target: &mut [u32],
    nodes: u32,
    subgoals: u32,
    answers: u32,
) -> u64
    ensures { ReturnsCarry nodes subgoals answers source.now target.old result target.new }
{
    done_word(copying::carry(source, target, nodes, subgoals, answers))
}

// Gives a table these capacities in its place; refused, it stays as it was.
#[unsafe(no_mangle)]
pub extern "C" fn tables_grow(space: &mut [u32], nodes: u32, subgoals: u32, answers: u32) -> u64
    ensures { ReturnsGrow nodes subgoals answers space.old result space.new }
{
    done_word(growing::grow(space, nodes, subgoals, answers))
}

// Finds or enters the subgoal that a term calls, given in pair form.
#[unsafe(no_mangle)]
pub extern "C" fn tables_call(space: &mut [u32], term: &[u32]) -> u64
    ensures { Returns space.old (request.call term.now) result [] space.new }
{
    call_word(calling::call(space, term))
}

// Finds or enters an answer of a subgoal: its terms one after another, as many as the subgoal has variables.
#[unsafe(no_mangle)]
pub extern "C" fn tables_answer(space: &mut [u32], subgoal: u32, terms: &[u32]) -> u64
    ensures { Returns space.old (request.answer subgoal terms.now) result [] space.new }
{
    answer_word(answering::answer(space, subgoal, terms))
}

// Finishes a subgoal; from then on it takes no answers.
#[unsafe(no_mangle)]
pub extern "C" fn tables_finish(space: &mut [u32], subgoal: u32) -> u64
    ensures { Returns space.old (request.finish subgoal) result [] space.new }
{
    done_word(calling::finish(space, subgoal))
}

// Joins two finished subgoals into an open one: two cells to a pair, and two to a copy.
#[unsafe(no_mangle)]
pub extern "C" fn tables_join(
    space: &mut [u32],
    first: u32,
    second: u32,
    pairs: &[u32],
    target: u32,
    copies: &[u32],
) -> u64
    ensures { Returns space.old (request.join first second pairs.now target copies.now) result [] space.new }
{
    join_word(join::joins::join(space, first, second, pairs, target, copies))
}

// ---- the calls that search, with an index

// As `tables_call`.
#[unsafe(no_mangle)]
pub extern "C" fn tables_call_indexed(space: &mut [u32], index: &[u32], term: &[u32]) -> u64
    ensures { ReturnsIndexed index.now space.old (request.call term.now) result [] space.new }
{
    call_word(calling::call_indexed(space, term, index))
}

// As `tables_answer`.
#[unsafe(no_mangle)]
pub extern "C" fn tables_answer_indexed(
    space: &mut [u32],
    index: &[u32],
    subgoal: u32,
    terms: &[u32],
) -> u64
    ensures { ReturnsIndexed index.now space.old (request.answer subgoal terms.now) result [] space.new }
{
    answer_word(answering::answer_indexed(space, subgoal, terms, index))
}

// As `tables_join`; the target is searched with the index.
#[unsafe(no_mangle)]
pub extern "C" fn tables_join_indexed(
    space: &mut [u32],
    index: &[u32],
    first: u32,
    second: u32,
    pairs: &[u32],
    target: u32,
    copies: &[u32],
) -> u64
    ensures { ReturnsIndexed index.now space.old (request.join first second pairs.now target copies.now) result []
        space.new }
{
    join_word(join::joins::join_indexed(space, first, second, pairs, target, copies, index))
}

// ---- the calls that only read the space

// The subgoal's answer after a given one; after 0 its first.
#[unsafe(no_mangle)]
pub extern "C" fn tables_next(space: &[u32], subgoal: u32, after: u32) -> u64
    ensures { Returns space.now (request.next subgoal after) result [] space.now }
{
    next_word(reads::next(space, subgoal, after))
}

// Writes the terms of an answer to the start of out, in pair form; the cells behind them stay.
#[unsafe(no_mangle)]
pub extern "C" fn tables_load(space: &[u32], answer: u32, out: &mut [u32]) -> u64
    ensures { Returns space.now (request.load answer out.old) result out.new space.now }
{
    cells_word(reads::load(space, answer, out))
}

// Writes the subgoal of an answer with the answer's terms for its variables, in the same way.
#[unsafe(no_mangle)]
pub extern "C" fn tables_instance(space: &[u32], answer: u32, out: &mut [u32]) -> u64
    ensures { Returns space.now (request.instance answer out.old) result out.new space.now }
{
    cells_word(reads::instance(space, answer, out))
}

// Writes the nodes, subgoals and answers used to the first three cells of out; the space is judged before
// the room.
#[unsafe(no_mangle)]
pub extern "C" fn tables_counts(space: &[u32], out: &mut [u32]) -> u64
    ensures { ReturnsCounts space.now result out.old out.new }
{
    match reads::counts(space) {
        Ok(c) if 3 <= out.len() => {
            out[..3].copy_from_slice(&[c.nodes, c.subgoals, c.answers]);
            result_word(COUNTS, 3)
        }
        Ok(_) => refusal_with(Refusal::Out, 3),
        Err(r) => refusal_word(r),
    }
}

// Tells why a term is old or new. For old writes the number of its variables and the variables to the start of out, for
// new how many of its leading tokens are shared; all else is judged before the room.
#[unsafe(no_mangle)]
pub extern "C" fn tables_why(space: &[u32], term: &[u32], out: &mut [u32]) -> u64
    ensures { ReturnsWhy space.now term.now result out.old out.new }
{
    give_reason(reasons::why(space, term), out)
}

// The same, with an index.
#[unsafe(no_mangle)]
pub extern "C" fn tables_why_indexed(
    space: &[u32],
    index: &[u32],
    term: &[u32],
    out: &mut [u32],
) -> u64
    ensures { ReturnsWhyIndexed index.now space.now term.now result out.old out.new }
{
    give_reason(reasons::why_indexed(space, term, index), out)
}

// Checks the whole space: refused by 9 where a record is broken, with the first that is as its value.
#[unsafe(no_mangle)]
pub extern "C" fn tables_check(space: &[u32]) -> u64
    ensures { ReturnsCheck space.now result }
{
    check_word(integrity::check(space))
}

// Fills an index from the nodes of a space; refused, the index stays as it was.
#[unsafe(no_mangle)]
pub extern "C" fn tables_build(space: &[u32], index: &mut [u32]) -> u64
    ensures { ReturnsBuild space.now index.old result index.new }
{
    build_word(indexing::build(space, index))
}
