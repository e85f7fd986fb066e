// What a cell stands for, in pair form and in compact form, and what readers and converters answer.
#![tactic(auto)]

ghost use Rattle.std.specs.Prelude.{◌≡◌, ◌+◌, ◌^◌, ◌≤◌, ◌<◌};
ghost use Rattle.forms.specs.Cells.{shape_of, arity_of, payload, variable, constant, atomic, integral, callable};
ghost use Rattle.forms.specs.Converting.{converter_edition, Refuses};
ghost use Rattle.forms.specs.Stored.{stores_pairs};
ghost use Rattle.forms.specs.Due.{arguments, due_after};

use basis::refusals::Refusal;

// What a cell of pair form stands for: a symbol that takes some arguments (a variable, an atom and
// an integer take none), a pair, or nothing legal.
#[derive(Clone, Copy)]
pub enum Shape {
    Symbol(usize),
    Pair,
    Illegal,
}

// What a cell of compact form stands for: a symbol, the beginning of a list (BLIST), what stands
// before its last element (ELIST) or before the term that it ends in (EPAIR), or nothing legal.
#[derive(Clone, Copy)]
pub enum Token {
    Sym(usize),
    Begin,
    Last,
    Tail,
    Other,
}

// Where a reader stands: at the cell that it reads next, before what it writes next, with the variables met so far.
#[derive(Clone, Copy)]
pub struct Place {
    pub at: usize,
    pub to: usize,
    pub count: usize,
}

// The tokens of the form that terms were read to, and the distinct variables in it.
#[derive(Clone, Copy)]
pub struct Form {
    pub tokens: usize,
    pub variables: usize,
}

// Why a converter, load or an instance wrote no cells: a refusal; or, for refusal 12, the cells that out would need.
// (Whoever puts answers into words may have a refusal by its number alone.)
#[derive(Clone, Copy)]
pub enum Unwritten<R = Refusal> {
    Refused(R),
    Short(usize),
}

impl From<Refusal> for Unwritten {
    ghost from_gives = { Refuses };

    fn from(refusal: Refusal) -> Unwritten {
        Unwritten::Refused(refusal)
    }
}

// How many payloads a kind has: the kind is the cell divided by it, and the payload is the remainder. Kinds stay
// numbers: they are those of the paper's cells (`kind`), and an enum would be made of each to be taken apart at once.
const PAYLOADS: u32 = 268435456;
// How many arities a functor can have in edition 1 and in edition 2: the arity is the remainder of its payload.
const ARITIES_IN_1: u32 = 16;

const ARITIES_IN_2: u32 = 256;
// The empty list [], which is atom 0.
pub const NIL: u32 = 2 * PAYLOADS;
// The pair of pair form.
pub const PAIR: u32 = 5 * PAYLOADS;
// The marks of compact form.
pub const BLIST: u32 = 6 * PAYLOADS;

pub const ELIST: u32 = 7 * PAYLOADS;

pub const EPAIR: u32 = 8 * PAYLOADS;
// Variable 0: the variable of rank r is r more.
pub const VARIABLE: u32 = PAYLOADS;

// Whether a cell is a variable.
pub fn is_variable(c: u32) -> bool
    ensures { result ≡ variable c }
{
    c / PAYLOADS == 1
}

// The payload of a cell, as an index.
pub fn payload_of(c: u32) -> usize
    ensures { result ≡ payload c }
{
    basis::wide(c % PAYLOADS)
}

// Whether a cell is an atom.
pub fn is_atom(c: u32) -> bool
    ensures { result ≡ atomic c }
{
    c / PAYLOADS == 2
}

// Whether a cell is an integer.
pub fn is_integer(c: u32) -> bool
    ensures { result ≡ integral c }
{
    c / PAYLOADS == 3
}

// Whether a cell is an atom or an integer.
pub fn is_constant(c: u32) -> bool
    ensures { result ≡ constant c }
{
    let kind = c / PAYLOADS;
    kind == 2 || kind == 3
}

// Whether a cell is an atom or a functor, with which a called term begins.
pub fn is_callable(c: u32) -> bool
    ensures { result ≡ callable c }
{
    let kind = c / PAYLOADS;
    kind == 2 || kind == 4
}

// Whether a converter takes the edition of this number. Not `basis::is_edition`: a space may come to have editions that
// no converter takes (`converter_edition`).
pub fn is_converter_edition(edition: u32) -> bool
    ensures { result ≡ converter_edition edition }
{
    edition == 1 || edition == 2
}

// Whether the edition of this number stores numbered pair form, and not compact form.
pub fn stores_pairs(edition: u32) -> bool
    ensures { result ≡ stores_pairs edition }
{
    edition == 4
}

// The arity in a functor's payload.
fn arity_of(edition: u32, payload: u32) -> usize
    ensures { result ≡ arity_of edition payload }
{
    if edition == 1 {
        return basis::wide(payload % ARITIES_IN_1);
    }
    basis::wide(payload % ARITIES_IN_2)
}

// The shape of a cell.
pub fn shape_of(c: u32, edition: u32) -> Shape
    ensures { result ≡ shape_of (arity_of edition) c }
{
    let kind = c / PAYLOADS;
    let payload = c % PAYLOADS;
    if kind == 4 {
        let k = arity_of(edition, payload);
        if k == 0 {
            return Shape::Illegal;
        }
        return Shape::Symbol(k);
    }
    if kind == 5 {
        if payload == 0 {
            return Shape::Pair;
        }
        return Shape::Illegal;
    }
    if kind == 0 {
        return Shape::Illegal;
    }
    if kind < 4 {
        return Shape::Symbol(0);
    }
    Shape::Illegal
}

// The arity of a cell of pair form: how many terms follow it in the term that it begins.
pub fn arguments_of(c: u32, edition: u32) -> usize
    ensures { (result ≡ arguments (shape_of (arity_of edition) c)) × (result ≤ 255) }
{
    match shape_of(c, edition) {
        Shape::Symbol(k) => k,
        Shape::Pair => 2,
        Shape::Illegal => 0,
    }
}

// How many terms are due behind a cell of this arity, where `due` were before it; 0 means that the last has ended.
// Whatever counts the terms still due counts here.
pub fn due_after(due: usize, arity: usize) -> usize
    requires { (0 < due) × (due + arity < 2 ^ 32) }
    ensures { result ≡ due_after due arity }
{
    due + arity - 1
}
