// Answer: decided first, and then the space is changed. It searches with an index; without one it is lent an index of
// no cells.
#![tactic(auto)]

ghost use Rattle.std.specs.Prelude.{◌≡◌, [], ◌+◌, ◌<◌, ◌≤◌, ◌^◌, length};
ghost use Rattle.basis.specs.Writes.{writes};
ghost use Rattle.plain.specs.Requests as request;
ghost use Rattle.space.specs.Layout.{sizes_of};
ghost use Rattle.space.specs.Sound.{Bounds, SubgoalRoom, answers_end, subgoal_under};
ghost use Rattle.store.specs.Decisions.{sound_last, answered_new, answered_old, enters_empty};
ghost use Rattle.store.specs.Changes.{chained, answer_entered};
ghost use Rattle.trie.specs.Index.{search_indexed};
ghost use Rattle.store.specs.Calls.{Answers, AnswersIndexed};
ghost use Rattle.convert.specs.Holds.{RoomForForm};
ghost use Rattle.store.specs.Clauses.{view_in, Does, AnswersUnder};
ghost use Rattle.store.specs.Clauses.{Held, HeldLast, RefusesNew};
ghost use Rattle.store.specs.Clauses.{entered_below, answered_from, answered_terms, FormIn, DoesRead};
ghost use Rattle.store.specs.Replies.{said_answer};

use basis::refusals::Refusal;
use basis::wide;
use convert::buffers::with_form;
use convert::read_terms;
use forms::Form;
use space::heading::{read_header, write_answer_counts};
use space::records::{
    node_in, read_answer, read_node, read_subgoal, write_answer, write_first, write_last,
    write_link, write_next, write_state,
};
use space::{Answer, Head, Subgoal};
use store::Entry;
use trie::Walked;
use trie::appends::append_path;
use trie::walks::walk_tokens;

// The last answer of subgoal s, where there is one, is the subgoal's and has none after it.
pub fn last_sound(space: &[u32], h: Head, s: usize, last: usize) -> bool
    requires { Bounds space.now h × (last ≤ h.answers) × (last ≡ (subgoal_under space.now h s).last) }
    ensures { result ≡ sound_last (view_in space.now h) s }
{
    if last == 0 {
        return true;
    }
    let Some(y) = read_answer(space, h, last) else {
        return false;
    };
    y.subgoal == s && y.next == 0
}

// Lets in a new answer that takes so many nodes more. A finished subgoal takes none.
fn admit(space: &[u32], h: Head, s: usize, g: Subgoal, more: usize) -> Result<(), Refusal>
    requires { Held space.now h s g }
    ensures { RefusesNew space.now h s more result }
{
    if !last_sound(space, h, s, g.last) {
        return Err(Refusal::Records);
    }
    if g.state != 0 {
        return Err(Refusal::State);
    }
    let free = h.node_capacity - h.nodes;
    if free < more {
        return Err(Refusal::Nodes);
    }
    if h.answer_capacity <= h.answers {
        return Err(Refusal::RecordsLeft);
    }
    Ok(())
}

// The new answer a becomes the first of subgoal s, or the next of its last.
fn chain(
    space: &mut [u32],
    subgoal_offset: usize,
    answer_offset: usize,
    s: usize,
    last: usize,
    a: usize,
    edition: u32,
)
    requires subgoal_room { SubgoalRoom space.old edition subgoal_offset s }
    requires last_in_bounds { (answers_end edition answer_offset last ≤ length space.old) × (a < 2 ^ 32) }
    ensures { space.new ≡ writes (chained (sizes_of edition) subgoal_offset answer_offset s last a) space.old }
{
    if last == 0 {
        write_first(space, subgoal_offset, s, a as u32, edition);
        return;
    }
    write_next(space, answer_offset, last, a as u32, edition);
}

// The leaf linked to the answer, the chain, the record, the subgoal's last answer, the counts.
fn enter_answer(space: &mut [u32], h: Head, s: usize, g: Subgoal, leaf: usize, nodes: usize)
    requires held_last { HeldLast space.old h s g }
    requires leaf_bound { (leaf < h.node_capacity) × (nodes ≤ h.node_capacity) × (h.answers < h.answer_capacity) }
    ensures { space.new ≡ answer_entered (sizes_of h.edition) space.old h s g leaf nodes }
{
    let a = h.answers + 1;
    write_link(space, h.node_capacity, leaf, a as u32);
    chain(
        space,
        h.subgoal_offset,
        h.answer_offset,
        s,
        g.last,
        a,
        h.edition,
    );
    let record = Answer {
        leaf,
        subgoal: s,
        next: 0,
    };
    write_answer(space, h.answer_offset, a, record, h.edition);
    write_last(space, h.subgoal_offset, s, a as u32, h.edition);
    write_answer_counts(space, nodes as u32, a as u32);
}

// A new answer whose leaf is the answer root: that of no terms. Its subgoal has no variables, and so no other answer.
fn answer_empty(space: &mut [u32], h: Head, s: usize, g: Subgoal) -> Result<Entry, Refusal>
    requires { Held space.old h s g }
    ensures { Does space.old h (λ v. answered_new v s 0 (enters_empty s)) (said_answer result) space.new }
{
    admit(space, h, s, g, 0)?;
    enter_answer(space, h, s, g, g.root, h.nodes);
    write_state(space, h.subgoal_offset, s, 1, h.edition);
    let a = h.answers + 1;
    Ok(Entry::New(a as u32))
}

// A new answer with a node for each token left.
fn answer_new(
    space: &mut [u32],
    h: Head,
    s: usize,
    g: Subgoal,
    parent: usize,
    last: usize,
    tokens: &[u32],
) -> Result<Entry, Refusal>
    requires held { Held space.old h s g }
    requires parent_lt_nodes { (parent < h.nodes) × (last < h.nodes) }
    ensures { Does space.old h (entered_below s parent last tokens.now) (said_answer result) space.new }
{
    admit(space, h, s, g, tokens.len())?;
    let nodes = h.nodes + tokens.len();
    append_path(space, h.node_capacity, h.nodes, parent, last, tokens);
    enter_answer(space, h, s, g, nodes - 1, nodes);
    let a = h.answers + 1;
    Ok(Entry::New(a as u32))
}

// The path was found whole at a leaf whose link is a; with no terms that is the answer root.
fn answer_old(
    space: &mut [u32],
    h: Head,
    s: usize,
    g: Subgoal,
    tokens: &[u32],
    leaf: usize,
    a: usize,
) -> Result<Entry, Refusal>
    requires held { Held space.old h s g }
    requires a_le_answers { a ≤ h.answers }
    ensures { Does space.old h (λ v. answered_old v s tokens.now leaf a) (said_answer result) space.new }
{
    if a == 0 {
        if tokens.is_empty() {
            return answer_empty(space, h, s, g);
        }
        return Err(Refusal::Records);
    }
    let y = read_answer(space, h, a).ok_or(Refusal::Records)?;
    if y.leaf == leaf {
        return Ok(Entry::Old(a as u32));
    }
    Err(Refusal::Records)
}

// Terms with this form answer subgoal s. `stood` nodes were there when the call began: all, unless a join has entered
// some.
pub fn answer_at(
    space: &mut [u32],
    h: Head,
    s: usize,
    g: Subgoal,
    tokens: &[u32],
    index: &[u32],
    stood: usize,
) -> Result<Entry, Refusal>
    requires { Held space.old h s g }
    ensures { Does space.old h (answered_from (search_indexed index.now stood) s g.root tokens.now) (said_answer result)
        space.new }
{
    match walk_tokens(space, h.nodes, h.answers, g.root, tokens, index, stood) {
        Walked::Whole(leaf) => {
            let y = node_in(space, h.nodes, leaf);
            answer_old(space, h, s, g, tokens, leaf, y.link)
        }
        Walked::Stopped(parent, last, left) => {
            let from = tokens.len() - left;
            answer_new(space, h, s, g, parent, last, &tokens[from..])
        }
        Walked::Damaged => Err(Refusal::Records),
    }
}

// Terms that were read answer subgoal s: refused, or with the form that the reader left.
fn answer_read(
    space: &mut [u32],
    h: Head,
    s: usize,
    g: Subgoal,
    read: Result<Form, Refusal>,
    form: &[u32],
    index: &[u32],
) -> Result<Entry, Refusal>
    requires { Held space.old h s g × FormIn form.now read }
    ensures { DoesRead (search_indexed index.now h.nodes) space.old h s g read form.now (said_answer result)
        space.new }
{
    let Ok(size) = read else {
        return Err(read.unwrap_err());
    };
    answer_at(space, h, s, g, &form[..size.tokens], index, h.nodes)
}

// A subgoal is answered. Short terms get short buffers.
fn answer_terms(
    space: &mut [u32],
    h: Head,
    s: usize,
    g: Subgoal,
    terms: &[u32],
    index: &[u32],
) -> Result<Entry, Refusal>
    requires { Held space.old h s g }
    ensures { Does space.old h (answered_terms (search_indexed index.now h.nodes) h s g.variables terms.now)
        (said_answer result) space.new }
{
    let mut answer = |vars: &mut [u32], form: &mut [u32]|
        requires { Held space.now h s g × RoomForForm terms.now vars.now form.now }
        ensures { Does space.entry.now h (answered_terms (search_indexed index.entry.now h.nodes) h s g.variables
            terms.entry.now) (said_answer result) space.exit.now }
    {
        let read = read_terms(terms, g.variables, vars, form, h.edition);
        answer_read(space, h, s, g, read, form, index)
    };
    with_form(terms.len(), &mut answer)
}

// In a space whose header is sound: the number, the subgoal and its answer root.
fn answer_in(
    space: &mut [u32],
    h: Head,
    s: usize,
    terms: &[u32],
    index: &[u32],
) -> Result<Entry, Refusal>
    requires { Bounds space.old h }
    ensures { AnswersUnder (search_indexed index.now h.nodes) space.old h (request.answer s terms.now)
        (said_answer result) space.new }
{
    if s == 0 || h.subgoals < s {
        return Err(Refusal::Number);
    }
    let g = read_subgoal(space, h, s).ok_or(Refusal::Records)?;
    let y = read_node(space, h.nodes, h.answers, g.root).ok_or(Refusal::Records)?;
    if y.parent != g.root {
        return Err(Refusal::Records);
    }
    answer_terms(space, h, s, g, terms, index)
}

// Enters the answer terms of an open subgoal, or finds them, in a finished one too: one term for each of its variables.
pub fn answer_indexed(
    space: &mut [u32],
    subgoal: u32,
    terms: &[u32],
    index: &[u32],
) -> Result<Entry, Refusal>
    ensures { AnswersIndexed index.now space.old (request.answer subgoal terms.now) (said_answer result) [] space.new }
{
    let h = read_header(space)?;
    answer_in(space, h, wide(subgoal), terms, index)
}

// The same without an index.
pub fn answer(space: &mut [u32], subgoal: u32, terms: &[u32]) -> Result<Entry, Refusal>
    ensures { Answers space.old (request.answer subgoal terms.now) (said_answer result) [] space.new }
{
    answer_indexed(space, subgoal, terms, &terms[..0])
}
