// The chains of answers, where each subgoal and each answer by itself is whole: so every chain rises and ends. They are
// counted together. Only where an answer is on no chain is it looked for, and that walks each answer's chain up to it.
ghost use Rattle.std.specs.Prelude.{◌≡◌, ◌≤◌};
ghost use Rattle.plain.specs.Coding.{coding_of};
ghost use Rattle.store.specs.Clauses.{view_at};
ghost use Rattle.agreement.specs.Faults.{answer_lost};
ghost use Rattle.integrity.specs.Tests.{ChainsWhole, ChainCounted, ChainSearched, chained_count, chained_in};
ghost use Rattle.integrity.specs.Tests.{ChainStarts};

use super::passes::first_failing;
use space::tables::Table;

// How many answers are on the chain from answer `first` on.
fn chain_length(table: &Table, first: usize) -> usize
    requires { ChainStarts table.now first }
    ensures { ChainCounted table.now first result }
{
    let mut a = first;
    let mut count = 0;
    while a != 0 {
        a = table.answer(a).next;
        count += 1;
    }
    count
}

// How many are on all chains together.
pub fn chains_length(table: &Table) -> usize
    requires { ChainsWhole table.now }
    ensures { result ≡ chained_count table.now }
{
    let mut count = 0;
    for i in 0..table.head.subgoals {
        count += chain_length(table, table.subgoal(i + 1).first);
    }
    count
}

// Is answer a on the chain from answer `first` on?
fn is_after(table: &Table, first: usize, a: usize) -> bool
    requires { ChainStarts table.now first }
    ensures { ChainSearched table.now first a result }
{
    let mut b = first;
    while b != 0 {
        if b == a {
            return true;
        }
        b = table.answer(b).next;
    }
    false
}

// Is answer a on the chain of its subgoal?
fn is_chained(table: &Table, a: usize) -> bool
    requires { ChainsWhole table.now × (1 ≤ a) × (a ≤ table.now.head.answers) }
    ensures { result ≡ chained_in table.now a }
{
    let y = table.answer(a);
    let g = table.subgoal(y.subgoal);
    is_after(table, g.first, a)
}

// One less than the first answer that is on no chain; the answers used where all are on one.
pub fn first_lost(table: &Table) -> usize
    requires { ChainsWhole table.now }
    ensures { result ≡ answer_lost (coding_of table.now.head.edition) (view_at table.now) }
{
    first_failing(table.head.answers, |i| is_chained(table, i + 1))
}
