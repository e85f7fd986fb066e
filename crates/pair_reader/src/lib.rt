// The readers of pair form, which write compact form and number variables as they read.
#![tactic(auto)]

ghost use Rattle.std.specs.Prelude.{◌≡◌, ◌∷◌, ◌+◌, ◌*◌, ◌-◌, ◌^◌, ◌≤◌, ◌<◌, length, take, drop};
ghost use Rattle.std.proofs.lemmas.List.Edits.{sets};
ghost use Rattle.pair_reader.specs.Storing.{Ranks, Stores, PairRoom, ReadsTerms, ReadsList};
ghost use Rattle.forms.specs.Places.{placed};

use forms::Place;

// The rank of the variable c among the first `count` cells of vars, or count. Puts c behind them.
fn number(vars: &mut [u32], count: usize, c: u32) -> usize
    requires { count < length vars.old }
    ensures { Ranks vars.old count c result vars.new }
{
    vars[count] = c;
    for (i, &v) in vars[..count].iter().enumerate() {
        if v == c {
            return i;
        }
    }
    count
}

// Moves the cells from `to` up to `end` one place up and puts x before them.
fn insert(out: &mut [u32], to: usize, end: usize, x: u32)
    requires { (to ≤ end) × (end < length out.old) }
    ensures { out.new ≡ sets out.old to (x ∷ take (end - to) (drop to out.old)) }
{
    out.copy_within(to..end, to + 1);
    out[to] = x;
}

// Writes the cell c at `to`, or the number of the variable c, and gives how many variables are known then.
pub fn store(c: u32, vars: &mut [u32], count: usize, out: &mut [u32], to: usize) -> usize
    requires { (count < 256) × (count < length vars.old) × (to < length out.old) }
    ensures { Stores c vars.old count out.old to vars.new result out.new }
{
    if forms::is_variable(c) {
        let r = number(vars, count, c);
        out[to] = forms::VARIABLE + r as u32;
        return count.max(r + 1);
    }
    out[to] = c;
    count
}

// Reads the first n terms in s, and leaves their compact forms at the start of out. The one sum of the terms still due
// is begun here, with n, which the number of cells bounds: each term has one at least. Constants that stand before any
// other cell take no call, and come to stand in out where they stand in s. At the first other cell `scan` goes on with
// what is due there.
pub fn terms(s: &[u32], n: usize, vars: &mut [u32], out: &mut [u32], edition: u32) -> Option<Place>
    requires { PairRoom s.now (placed 0 0 0) vars.old out.old }
    ensures { ReadsTerms edition s.now (placed 0 0 0) n vars.old out.old vars.new out.new result }
{
    if s.len() < n {
        return None;
    }
    for (at, &c) in s[..n].iter().enumerate() {
        if !forms::is_constant(c) {
            let place = Place {
                at,
                to: at,
                count: 0,
            };
            return scan(s, place, n - at, vars, out, edition);
        }
        out[at] = c;
    }
    Some(Place {
        at: n,
        to: n,
        count: 0,
    })
}

// Reads the n terms that are due at a place, and writes their compact forms. In a pair's place its element and its tail
// become due, and the list reader reads both.
#[cycle(element_list_scan_term)]
fn scan(
    s: &[u32],
    from: Place,
    n: usize,
    vars: &mut [u32],
    out: &mut [u32],
    edition: u32,
) -> Option<Place>
    requires { PairRoom s.now from vars.old out.old × (n ≤ 256) }
    ensures { ReadsTerms edition s.now from n vars.old out.old vars.new out.new result }
{
    // A turn passes a cell or a whole list, so `at` goes on by what was read.
    let mut at = from.at;
    let mut due = n;
    let mut count = from.count;
    let mut to = from.to;
    while 0 < due {
        if s.len() <= at {
            return None;
        }
        let c = s[at];
        match forms::shape_of(c, edition) {
            forms::Shape::Symbol(k) => {
                count = store(c, vars, count, out, to);
                at += 1;
                to += 1;
                due = forms::due_after(due, k);
            }
            forms::Shape::Pair => {
                out[to] = forms::BLIST;
                let after = list(s, at + 1, vars, count, out, to + 1, edition)?;
                at = after.at;
                to = after.to;
                count = after.count;
                due = forms::due_after(due, 2) - 2;
            }
            forms::Shape::Illegal => return None,
        }
    }
    Some(Place { at, to, count })
}

// Reads the term at a place. The list reader has its place in numbers, and here they are put together: with a struct
// for each element a flat list took an eighth more instructions.
#[cycle(element_list_scan_term)]
fn term(
    s: &[u32],
    at: usize,
    vars: &mut [u32],
    count: usize,
    out: &mut [u32],
    to: usize,
    edition: u32,
) -> Option<Place>
    requires { PairRoom s.now (placed at to count) vars.old out.old }
    ensures { ReadsTerms edition s.now (placed at to count) 1 vars.old out.old vars.new out.new result }
{
    let place = Place { at, to, count };
    scan(s, place, 1, vars, out, edition)
}

// Reads a list's element and its tail from `from` on, and writes the list's elements from `start` on.
#[cycle(element_list_scan_term)]
fn list(
    s: &[u32],
    from: usize,
    vars: &mut [u32],
    known: usize,
    out: &mut [u32],
    start: usize,
    edition: u32,
) -> Option<Place>
    requires { PairRoom s.now (placed from start known) vars.old out.old × (2 * start + 1 ≤ 3 * from) }
    ensures { ReadsList edition s.now (placed from start known) vars.old out.old vars.new out.new result }
{
    let mut at = from;
    let mut count = known;
    let mut to = start;
    loop {
        let after = element(s, at, vars, count, out, to, edition)?;
        if s.len() <= after.at {
            return None;
        }
        let c = s[after.at];
        if c == forms::NIL {
            insert(out, to, after.to, forms::ELIST);
            return Some(Place {
                at: after.at + 1,
                to: after.to + 1,
                count: after.count,
            });
        }
        if c != forms::PAIR {
            out[after.to] = forms::EPAIR;
            return term(s, after.at, vars, after.count, out, after.to + 1, edition);
        }
        at = after.at + 1;
        to = after.to;
        count = after.count;
    }
}

// Reads an element of a list. Most are constants, and take no call of the reader of terms.
#[cycle(element_list_scan_term)]
fn element(
    s: &[u32],
    at: usize,
    vars: &mut [u32],
    count: usize,
    out: &mut [u32],
    to: usize,
    edition: u32,
) -> Option<Place>
    requires { PairRoom s.now (placed at to count) vars.old out.old }
    ensures { ReadsTerms edition s.now (placed at to count) 1 vars.old out.old vars.new out.new result }
{
    if s.len() <= at {
        return None;
    }
    let c = s[at];
    if forms::is_constant(c) {
        out[to] = c;
        return Some(Place {
            at: at + 1,
            to: to + 1,
            count,
        });
    }
    term(s, at, vars, count, out, to, edition)
}
