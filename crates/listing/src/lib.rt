// Every call of a small size, one after another: the first, and the one after a given one. Nothing is kept but a term
// of at most eight cells, and which of the numbers below eight are sums of the symbols' arities.
#![tactic(auto)]

ghost use Rattle.std.specs.Prelude.{◌≡◌, true, ◌+◌, ◌-◌, ◌≤◌, ◌<◌, ◌==◌, length, take, drop, position};
ghost use Rattle.listing.specs.Listing.{is_symbol, are_symbols, listable, GivesFirst, GivesAfter};
ghost use Rattle.listing.specs.Steps.{start, known_after, allowed, passed, leads_to, sum_reached, sums_below};
ghost use Rattle.listing.specs.Steps.{is_listed};
ghost use Rattle.listing.specs.Clauses.{may_begin, letter_at, place_in, is_letter, fits_by, goes_on_by};
ghost use Rattle.listing.specs.Clauses.{ChoosesCell, RoomToFill, FillsFrom, RoomToAdvance, AdvancesFrom, Offers};

use basis::limits::{MOST_LISTED, MOST_SYMBOLS};
use basis::refusals::Refusal;
use forms::Unwritten;

// A place of a term: how many cells stand before it, how many variables are known there, and how many terms are due.
#[derive(Clone, Copy)]
struct Spot {
    at: usize,
    known: usize,
    due: usize,
}

// The terms of s cells over symbols for which there is a list, with the numbers below 8 that are sums of arities.
#[derive(Drop)]
struct Terms<'a> {
    symbols: &'a [u32],
    s: usize,
    edition: u32,
    sums: [bool; MOST_LISTED],
    ghost given: { listable edition s symbols.now ≡ true },
    ghost table: { sums ≡ sums_below edition symbols.now 8 },
}

// ---- what is given

// The place of c among the symbols.
fn find(symbols: &[u32], c: u32) -> Option<usize>
    ensures { result ≡ position (λ symbol. symbol == c) symbols.now }
{
    symbols.iter().position(|symbol| *symbol == c)
}

// Whether a cell is an atom, an integer, a functor or the pair, legal in the edition.
fn is_symbol(c: u32, edition: u32) -> bool
    ensures { result ≡ is_symbol edition c }
{
    !forms::is_variable(c) && !matches!(forms::shape_of(c, edition), forms::Shape::Illegal)
}

// Whether each cell is a symbol, and none is repeated.
fn are_symbols(symbols: &[u32], edition: u32) -> bool
    ensures { result ≡ are_symbols edition symbols.now }
{
    for (i, &c) in symbols.iter().enumerate() {
        if !is_symbol(c, edition) || symbols[i + 1..].contains(&c) {
            return false;
        }
    }
    true
}

// Whether there is a list for what is given.
fn is_listable(symbols: &[u32], s: usize, edition: u32) -> bool
    ensures { result ≡ listable edition s symbols.now }
{
    if !forms::is_converter_edition(edition)
        || s < 1
        || MOST_LISTED < s
        || MOST_SYMBOLS < symbols.len()
    {
        return false;
    }
    are_symbols(symbols, edition)
}

// ---- places

// Where a term begins.
fn beginning() -> Spot
    ensures { result ≡ start }
{
    Spot {
        at: 0,
        known: 0,
        due: 1,
    }
}

// Whether c may stand at the place `at`: a term begins with an atom or a functor.
fn may_begin(c: u32, at: usize) -> bool
    ensures { result ≡ may_begin at c }
{
    at != 0 || forms::is_callable(c)
}

// Whether c may stand at a place: a term is due there, and a variable is a known one or the next.
fn is_allowed(c: u32, place: Spot) -> bool
    ensures { result ≡ allowed place c }
{
    0 < place.due
        && may_begin(c, place.at)
        && (!forms::is_variable(c) || forms::payload_of(c) <= place.known)
}

// How many variables are known after c.
fn known_after(known: usize, c: u32) -> usize
    ensures { result ≡ known_after known c }
{
    if forms::is_variable(c) {
        return known.max(forms::payload_of(c) + 1);
    }
    known
}

// The place after c.
fn place_after(place: Spot, c: u32, edition: u32) -> Spot
    requires { (place.at ≤ 8) × (0 < place.due) × (place.due ≤ 4096) }
    ensures { result ≡ passed edition place c }
{
    Spot {
        at: place.at + 1,
        known: known_after(place.known, c),
        due: forms::due_after(place.due, forms::arguments_of(c, edition)),
    }
}

// ---- the cells in their order: the symbols as given, then the variables by number

// The j-th of them.
fn letter(symbols: &[u32], j: usize) -> u32
    requires { j < length symbols.now + 8 }
    ensures { result ≡ letter_at symbols.now j }
{
    if j < symbols.len() {
        return symbols[j];
    }
    forms::VARIABLE + (j - symbols.len()) as u32
}

// The place of one of them.
fn place_of(symbols: &[u32], c: u32) -> usize
    requires { length symbols.now ≤ 16 }
    ensures { result ≡ place_in symbols.now c }
{
    if forms::is_variable(c) {
        return symbols.len() + forms::payload_of(c);
    }
    find(symbols, c).unwrap_or(symbols.len())
}

// Whether c is one of them, where terms have s cells.
fn is_letter(symbols: &[u32], s: usize, c: u32) -> bool
    ensures { result ≡ is_letter s symbols.now c }
{
    if forms::is_variable(c) {
        return forms::payload_of(c) < s;
    }
    symbols.contains(&c)
}

// Whether a term stands in the list.
fn is_listed(symbols: &[u32], s: usize, term: &[u32], edition: u32) -> bool
    requires { listable edition s symbols.now ≡ true }
    ensures { result ≡ is_listed edition s symbols.now term.now }
{
    if term.len() != s {
        return false;
    }
    let mut place = beginning();
    for &c in term {
        if !is_letter(symbols, s, c) || !is_allowed(c, place) {
            return false;
        }
        place = place_after(place, c, edition);
    }
    place.due == 0
}

// ---- whether terms can be ended

// Whether an arity leads from one of the sums to t.
fn is_leading(arity: usize, t: usize, sums: &[bool; MOST_LISTED]) -> bool
    requires { t < 8 }
    ensures { result ≡ leads_to arity t (take t sums.now) }
{
    if arity == 0 || t < arity {
        return false;
    }
    sums[t - arity]
}

// Whether t is a sum of the symbols' arities, where it is known which lower numbers are.
fn is_reached(symbols: &[u32], t: usize, sums: &[bool; MOST_LISTED], edition: u32) -> bool
    requires { t < 8 }
    ensures { result ≡ sum_reached edition t (take t sums.now) symbols.now }
{
    for &c in symbols {
        if is_leading(forms::arguments_of(c, edition), t, sums) {
            return true;
        }
    }
    false
}

// Which of the numbers below 8 are sums of the symbols' arities.
fn sums_of(symbols: &[u32], edition: u32) -> [bool; MOST_LISTED]
    ensures { result ≡ sums_below edition symbols.now 8 }
{
    let mut sums = [false; MOST_LISTED];
    sums[0] = true;
    for t in 1..MOST_LISTED {
        sums[t] = is_reached(symbols, t, &sums, edition);
    }
    sums
}

impl Terms<'_> {
    // Whether so many terms can stand in exactly `left` cells: none in no cell, or some where arities make up the rest.
    fn can_fit(&self, due: usize, left: usize) -> bool
        requires { left < 8 }
        ensures { result ≡ fits_by self.now.sums due left }
    {
        if due == 0 {
            return left == 0;
        }
        due <= left && self.sums[left - due]
    }

    // Whether a term can go on with c at a place, and end with the `left` cells after it.
    fn goes_on(&self, c: u32, place: Spot, left: usize) -> bool
        requires { (left < 8) × (place.at ≤ 8) × (place.due ≤ 8) }
        ensures { result ≡ goes_on_by self.now.edition self.now.sums place left c }
    {
        is_allowed(c, place) && self.can_fit(place_after(place, c, self.edition).due, left)
    }

    // The first cell, from the one numbered `from` on, with which a term can go on at a place.
    fn choose(&self, from: usize, place: Spot) -> Option<u32>
        requires { RoomToFill self.now.s place × (place.at < self.now.s) }
        ensures { ChoosesCell self.now.edition self.now.s self.now.symbols.now place from result }
    {
        let left = self.s - place.at - 1;
        // Read once, before the loop: read in each turn it takes 7 % more time a term.
        let symbols = self.symbols;
        for j in from..symbols.len() + self.s {
            let c = letter(symbols, j);
            if self.goes_on(c, place, left) {
                return Some(c);
            }
        }
        None
    }

    // Fills the term from a place on with the first cells that end it. False where there are none.
    // A bool, as the term is changed in place and an Option would hold nothing; so is that of `advance`.
    fn fill(&self, term: &mut [u32; MOST_LISTED], from: Spot) -> bool
        requires { RoomToFill self.now.s from × (length term.old ≡ 8) }
        ensures { FillsFrom self.now.edition self.now.s self.now.symbols.now from term.old result term.new }
    {
        let mut place = from;
        for at in from.at..self.s {
            let Some(c) = self.choose(0, place) else {
                return false;
            };
            term[at] = c;
            place = place_after(place, c, self.edition);
        }
        true
    }

    // Turns the term, from a place on, into the next one that has the same cells before it. False where it is the last.
    fn advance(&self, term: &mut [u32; MOST_LISTED], place: Spot) -> bool
        requires { RoomToAdvance self.now.edition self.now.s self.now.symbols.now term.old place }
        ensures { AdvancesFrom self.now.edition self.now.s self.now.symbols.now place term.old result term.new }
    {
        let at = place.at;
        if self.s <= at {
            return false;
        }
        let c = term[at];
        let next = place_after(place, c, self.edition);
        if self.advance(term, next) {
            return true;
        }
        let later = place_of(self.symbols, c) + 1;
        // The place is written anew, so that its own copy is never lent and stays in registers.
        let here = Spot { at, ..place };
        let Some(d) = self.choose(later, here) else {
            return false;
        };
        term[at] = d;
        let next = place_after(place, d, self.edition);
        self.fill(term, next)
    }
}

// ---- the first term, and the one after a term

// Writes the term of s cells that was found, if it fits.
fn offer(term: &[u32; MOST_LISTED], s: usize, out: &mut [u32]) -> Result<Option<usize>, Unwritten>
    requires { s ≤ 8 }
    ensures { Offers (Some (take s term.now)) s out.old result out.new }
{
    if out.len() < s {
        return Err(Unwritten::Short(s));
    }
    convert::copy(term, s, out);
    Ok(Some(s))
}

// The first call of s cells over the symbols, in an edition: the cells written, or None at the end of the list.
pub fn first_term(
    symbols: &[u32],
    s: usize,
    out: &mut [u32],
    edition: u32,
) -> Result<Option<usize>, Unwritten>
    ensures { GivesFirst edition s symbols.now out.old result out.new }
{
    if !is_listable(symbols, s, edition) {
        return Err(Unwritten::Refused(Refusal::Listing));
    }
    let sums = sums_of(symbols, edition);
    let terms = Terms {
        symbols,
        s,
        edition,
        sums,
    };
    let mut term = [0; MOST_LISTED];
    if !terms.fill(&mut term, beginning()) {
        return Ok(None);
    }
    offer(&term, s, out)
}

// The call after a given one in the list of those of s cells over the symbols, in an edition; None behind the last.
pub fn term_after(
    symbols: &[u32],
    s: usize,
    given: &[u32],
    out: &mut [u32],
    edition: u32,
) -> Result<Option<usize>, Unwritten>
    ensures { GivesAfter edition s symbols.now given.now out.old result out.new }
{
    if !is_listable(symbols, s, edition) {
        return Err(Unwritten::Refused(Refusal::Listing));
    }
    if !is_listed(symbols, s, given, edition) {
        return Err(Unwritten::Refused(Refusal::Listed));
    }
    let sums = sums_of(symbols, edition);
    let terms = Terms {
        symbols,
        s,
        edition,
        sums,
    };
    let mut term = [0; MOST_LISTED];
    convert::copy(given, s, &mut term);
    if !terms.advance(&mut term, beginning()) {
        return Ok(None);
    }
    offer(&term, s, out)
}
