// Why a term is old or new: the reason for what call would answer. The space is lent to read. The search is call's,
// with an index; without one it is lent an index of no cells.
#![tactic(auto)]

ghost use Rattle.std.specs.Prelude.{◌≡◌, [], ℕ, ◌<◌, ◌^◌, length, take, Ok};
ghost use Rattle.plain.specs.Requests as request;
ghost use Rattle.space.specs.Sound.{Bounds};
ghost use Rattle.trie.specs.Index.{search_indexed};
ghost use Rattle.store.specs.Calls.{Answers, AnswersIndexed};
ghost use Rattle.convert.specs.Holds.{RoomForForm};
ghost use Rattle.store.specs.Clauses.{view_in, AnswersUnder};
ghost use Rattle.store.specs.Replies.{said_because, said_reason, said_why, NamesIn, NamedIn, NamesHeld};
ghost use Rattle.reasons.specs.Clauses.{SoundNode, Descends, NamesLeaf, Reasons, old_at, new_below, reasoned_from};

use basis::limits::MOST_VARIABLES;
use basis::refusals::Refusal;
use calling::call_old;
use convert::buffers::with_form;
use convert::{copy, read_terms};
use forms::is_callable;
use space::Head;
use space::heading::read_header;
use space::records::{node_in, read_node};
use store::{CallAnswer, Reason, Why};
use trie::Walked;
use trie::walks::walk_tokens;

// Down by first children from a node that was read and found sound, to a node that has none. Each child is judged as a
// node compared is; nothing where one is damaged.
fn descend(space: &[u32], h: Head, from: usize) -> Option<usize>
    requires { SoundNode space.now h from }
    ensures { Descends space.now h from result }
{
    let y = node_in(space, h.nodes, from);
    let mut n = from;
    let mut child = y.child;
    while child != 0 {
        let x = read_node(space, h.nodes, h.subgoals, child)?;
        if x.parent != n {
            return None;
        }
        n = child;
        child = x.child;
    }
    Some(n)
}

// The subgoal that a leaf is linked to and whose record names that leaf; refused where a damaged record was met.
fn subgoal_of(space: &[u32], h: Head, leaf: usize) -> Result<u32, Refusal>
    requires { SoundNode space.now h leaf }
    ensures { NamesLeaf space.now h leaf result }
{
    let y = node_in(space, h.nodes, leaf);
    match call_old(space, h, leaf, y.link) {
        CallAnswer::Old(s, _) => Ok(s),
        CallAnswer::New(_) | CallAnswer::Refused(_) => Err(Refusal::Records),
    }
}

// The form was found whole at a leaf; the term has m variables.
fn why_old(space: &[u32], h: Head, leaf: usize, m: usize) -> Result<Reason, Refusal>
    requires { SoundNode space.now h leaf }
    ensures { Reasons m (old_at (view_in space.now h) leaf m) result }
{
    let s = subgoal_of(space, h, leaf)?;
    Ok(Reason::Old(s, m))
}

// The search stopped at a node after n tokens: the lowest subgoal below it shares them, and none shares more.
fn why_new(space: &[u32], h: Head, parent: usize, n: usize) -> Result<Reason, Refusal>
    requires { SoundNode space.now h parent × (n < 2 ^ 32) }
    ensures { (m : ℕ) → Reasons m (new_below (view_in space.now h) parent n) result }
{
    if n == 0 {
        return Ok(Reason::New(0, 0));
    }
    let leaf = descend(space, h, parent).ok_or(Refusal::Records)?;
    let s = subgoal_of(space, h, leaf)?;
    Ok(Reason::New(n as u32, s))
}

// A term with this form and m variables.
fn why_at(
    space: &[u32],
    h: Head,
    tokens: &[u32],
    m: usize,
    index: &[u32],
) -> Result<Reason, Refusal>
    requires { Bounds space.now h × (length tokens.now < 2 ^ 32) }
    ensures { Reasons m (reasoned_from (search_indexed index.now h.nodes) (view_in space.now h) tokens.now m) result }
{
    match walk_tokens(space, h.nodes, h.subgoals, 0, tokens, index, h.nodes) {
        Walked::Whole(leaf) => why_old(space, h, leaf, m),
        Walked::Stopped(parent, _, left) => why_new(space, h, parent, tokens.len() - left),
        Walked::Damaged => Err(Refusal::Records),
    }
}

// With buffers that are long enough for the term; its variables are left in vars.
fn why_with(
    space: &[u32],
    h: Head,
    term: &[u32],
    vars: &mut [u32],
    form: &mut [u32],
    index: &[u32],
) -> Result<Reason, Refusal>
    requires bounds { Bounds space.now h }
    requires room_for_form { RoomForForm term.now vars.old form.old }
    ensures answers_under { AnswersUnder (search_indexed index.now h.nodes) space.now h (request.why term.now)
        (said_reason result vars.new) space.now }
    ensures named_in { NamedIn vars.new result }
{
    let size = read_terms(term, 1, vars, form, h.edition)?;
    if is_callable(term[0]) {
        return why_at(space, h, &form[..size.tokens], size.variables, index);
    }
    Err(Refusal::Predicate)
}

// The reason with its variables, which are the first of vars.
fn with_variables(reason: Reason, vars: &[u32]) -> Why
    requires { NamesIn vars.now reason }
    ensures { (said_because result.reason result.variables ≡ said_because reason vars.now) × NamesHeld (Ok result) }
{
    let mut variables = [0u32; MOST_VARIABLES];
    if let Reason::Old(_, m) = reason {
        copy(vars, m, &mut variables);
    }
    Why { reason, variables }
}

// Tells why call would find the term old or new.
pub fn why_indexed(space: &[u32], term: &[u32], index: &[u32]) -> Result<Why, Refusal>
    ensures answers_indexed { AnswersIndexed index.now space.now (request.why term.now) (said_why result) [] space.now }
    ensures names_held { NamesHeld result }
{
    let h = read_header(space)?;
    let mut why = |vars: &mut [u32], form: &mut [u32]|
        requires { Bounds space.now h × RoomForForm term.now vars.now form.now }
        ensures { AnswersUnder (search_indexed index.entry.now h.nodes) space.entry.now h (request.why term.entry.now)
            (said_why result) space.exit.now × NamesHeld result }
    {
        let reason = why_with(space, h, term, vars, form, index)?;
        Ok(with_variables(reason, vars))
    };
    with_form(term.len(), &mut why)
}

// The same without an index.
pub fn why(space: &[u32], term: &[u32]) -> Result<Why, Refusal>
    ensures answers { Answers space.now (request.why term.now) (said_why result) [] space.now }
    ensures names_held { NamesHeld result }
{
    why_indexed(space, term, &term[..0])
}
