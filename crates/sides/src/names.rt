// What the pairs and the copies of a join name.
ghost use Rattle.std.specs.Prelude.{◌≡◌, ◌≤◌};
ghost use Rattle.plain.specs.Joins.{pairs_named, copies_named, named};
ghost use Rattle.sides.specs.Names.{variables_of};

use basis::limits::MOST_PAIRS;
use basis::wide;

// The cells of the most pairs: two to each.
const PAIR_CELLS: usize = 2 * MOST_PAIRS;

// The variables of the source on a side: 0 where there is no such side.
fn variables_of(side: u32, m: usize, n: usize) -> usize
    ensures { result ≡ variables_of m n side }
{
    match side {
        0 => m,
        1 => n,
        _ => 0,
    }
}

// Are both variables of each pair below their source's number of variables?
fn pairs_named(pairs: &[u32], m: usize, n: usize) -> bool
    ensures { result ≡ pairs_named m n pairs.now }
{
    let mut rest = pairs;
    while let [first, second, after @ ..] = rest {
        if m <= wide(*first) || n <= wide(*second) {
            return false;
        }
        rest = after;
    }
    rest.is_empty()
}

// Is the variable of each copy below the number of variables of the source on its side?
fn copies_named(copies: &[u32], m: usize, n: usize) -> bool
    ensures { result ≡ copies_named m n copies.now }
{
    let mut rest = copies;
    while let [side, variable, after @ ..] = rest {
        if variables_of(*side, m, n) <= wide(*variable) {
            return false;
        }
        rest = after;
    }
    rest.is_empty()
}

// Do pairs and copies name variables of two sources with m and n variables, a copy for each of k variables?
pub fn named(pairs: &[u32], copies: &[u32], m: usize, n: usize, k: usize) -> bool
    requires { k ≤ 32 }
    ensures { result ≡ named m n pairs.now k copies.now }
{
    pairs.len() <= PAIR_CELLS
        && copies.len() == 2 * k
        && pairs_named(pairs, m, n)
        && copies_named(copies, m, n)
}
