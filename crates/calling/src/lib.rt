// Call and finish. Each decides first, and then changes the space. A call searches with an index; without one it is
// lent an index of no cells.
#![tactic(auto)]

ghost use Rattle.std.specs.Prelude.{◌≡◌, [], ◌+◌, ◌<◌, ◌≤◌, length};
ghost use Rattle.plain.specs.Requests as request;
ghost use Rattle.space.specs.Layout.{sizes_of};
ghost use Rattle.space.specs.Sound.{Bounds};
ghost use Rattle.store.specs.Decisions.{says, state_of, called_old, called_new};
ghost use Rattle.store.specs.Changes.{subgoal_entered};
ghost use Rattle.trie.specs.Siblings.{search_children};
ghost use Rattle.trie.specs.Index.{search_indexed};
ghost use Rattle.store.specs.Calls.{Answers, AnswersIndexed};
ghost use Rattle.convert.specs.Holds.{RoomForForm};
ghost use Rattle.store.specs.Clauses.{view_in, Does, AnswersUnder, StoppedAt};
ghost use Rattle.store.specs.Clauses.{called_from};
ghost use Rattle.store.specs.Replies.{said_state, said_call, said_finish};

use basis::refusals::Refusal;
use basis::wide;
use convert::buffers::with_form;
use convert::read_terms;
use forms::is_callable;
use space::heading::{read_header, write_subgoal_counts};
use space::records::{node_in, read_subgoal, write_link, write_node, write_state, write_subgoal};
use space::{Head, Node, Subgoal};
use store::{CallAnswer, State};
use trie::Walked;
use trie::appends::append_path;
use trie::walks::walk_tokens;

// What a subgoal's state cell says. No `TryFrom`: a record that was read and judged has no third state.
fn state_of(x: usize) -> State
    ensures { said_state result ≡ state_of x }
{
    if x == 0 {
        return State::Open;
    }
    State::Finished
}

// The path was found whole at a leaf whose link is s.
pub fn call_old(space: &[u32], h: Head, leaf: usize, s: usize) -> CallAnswer
    requires { Bounds space.now h × (s ≤ h.subgoals) }
    ensures { says (said_call result) ≡ called_old (view_in space.now h) leaf s }
{
    if s == 0 {
        return CallAnswer::Refused(Refusal::Records);
    }
    let Some(y) = read_subgoal(space, h, s) else {
        return CallAnswer::Refused(Refusal::Records);
    };
    if y.leaf == leaf {
        return CallAnswer::Old(s as u32, state_of(y.state));
    }
    CallAnswer::Refused(Refusal::Records)
}

// The path, its leaf linked to the subgoal, the answer root behind it, the record, the counts.
fn enter_subgoal(space: &mut [u32], h: Head, parent: usize, last: usize, tokens: &[u32], m: usize)
    requires stopped_at { StoppedAt space.old h parent last m }
    requires tokens_bound { (h.nodes + length tokens.now < h.node_capacity) × (h.subgoals < h.subgoal_capacity) }
    ensures { space.new ≡ subgoal_entered (sizes_of h.edition) space.old h parent last tokens.now m }
{
    let root = h.nodes + tokens.len();
    let leaf = root - 1;
    let s = h.subgoals + 1;
    append_path(space, h.node_capacity, h.nodes, parent, last, tokens);
    write_link(space, h.node_capacity, leaf, s as u32);
    let node = Node {
        token: 0,
        child: 0,
        sibling: 0,
        parent: root,
        link: 0,
    };
    write_node(space, h.node_capacity, root, node);
    let record = Subgoal {
        leaf,
        root,
        variables: m,
        state: 0,
        first: 0,
        last: 0,
    };
    write_subgoal(space, h.subgoal_offset, s, record, h.edition);
    write_subgoal_counts(space, (root + 1) as u32, s as u32);
}

// The path stopped below a node: a node for each token left and an answer root are new.
fn call_new(
    space: &mut [u32],
    h: Head,
    parent: usize,
    last: usize,
    tokens: &[u32],
    m: usize,
) -> CallAnswer
    requires { StoppedAt space.old h parent last m }
    ensures { Does space.old h (λ v. called_new v parent last tokens.now m) (said_call result) space.new }
{
    let free = h.node_capacity - h.nodes;
    if free <= tokens.len() {
        return CallAnswer::Refused(Refusal::Nodes);
    }
    if h.subgoal_capacity <= h.subgoals {
        return CallAnswer::Refused(Refusal::RecordsLeft);
    }
    enter_subgoal(space, h, parent, last, tokens, m);
    let s = h.subgoals + 1;
    CallAnswer::New(s as u32)
}

// A term with this form and m variables is called.
pub fn call_at(space: &mut [u32], h: Head, tokens: &[u32], m: usize, index: &[u32]) -> CallAnswer
    requires { Bounds space.old h × (m ≤ 32) }
    ensures { Does space.old h (called_from (search_indexed index.now h.nodes) tokens.now m) (said_call result)
        space.new }
{
    match walk_tokens(space, h.nodes, h.subgoals, 0, tokens, index, h.nodes) {
        Walked::Whole(leaf) => {
            let y = node_in(space, h.nodes, leaf);
            call_old(space, h, leaf, y.link)
        }
        Walked::Stopped(parent, last, left) => {
            let from = tokens.len() - left;
            call_new(space, h, parent, last, &tokens[from..], m)
        }
        Walked::Damaged => CallAnswer::Refused(Refusal::Records),
    }
}

// A term is called, with buffers that are long enough for it.
fn call_with(
    space: &mut [u32],
    h: Head,
    term: &[u32],
    vars: &mut [u32],
    form: &mut [u32],
    index: &[u32],
) -> CallAnswer
    requires bounds { Bounds space.old h }
    requires room_for_form { RoomForForm term.now vars.old form.old }
    ensures { AnswersUnder (search_indexed index.now h.nodes) space.old h (request.call term.now) (said_call result)
        space.new }
{
    let read = read_terms(term, 1, vars, form, h.edition);
    let Ok(size) = read else {
        return CallAnswer::Refused(read.unwrap_err());
    };
    if is_callable(term[0]) {
        return call_at(space, h, &form[..size.tokens], size.variables, index);
    }
    CallAnswer::Refused(Refusal::Predicate)
}

// Enters the subgoal that a callable term calls, or finds it.
pub fn call_indexed(space: &mut [u32], term: &[u32], index: &[u32]) -> CallAnswer
    ensures { AnswersIndexed index.now space.old (request.call term.now) (said_call result) [] space.new }
{
    match read_header(space) {
        Err(r) => CallAnswer::Refused(r),
        Ok(h) => {
            let mut call = |vars: &mut [u32], form: &mut [u32]|
                requires { Bounds space.now h × RoomForForm term.now vars.now form.now }
                ensures { AnswersUnder (search_indexed index.entry.now h.nodes) space.entry.now h
                    (request.call term.entry.now) (said_call result) space.exit.now }
            { call_with(space, h, term, vars, form, index) };
            with_form(term.len(), &mut call)
        }
    }
}

// The same without an index.
pub fn call(space: &mut [u32], term: &[u32]) -> CallAnswer
    ensures { Answers space.old (request.call term.now) (said_call result) [] space.new }
{
    call_indexed(space, term, &term[..0])
}

// In a space whose header is sound.
fn finish_in(space: &mut [u32], h: Head, s: usize) -> Result<(), Refusal>
    requires { Bounds space.old h }
    ensures { AnswersUnder search_children space.old h (request.finish s) (said_finish result) space.new }
{
    if s == 0 || h.subgoals < s {
        return Err(Refusal::Number);
    }
    read_subgoal(space, h, s).ok_or(Refusal::Records)?;
    write_state(space, h.subgoal_offset, s, 1, h.edition);
    Ok(())
}

// Finishes a subgoal; to finish it again changes nothing.
pub fn finish(space: &mut [u32], subgoal: u32) -> Result<(), Refusal>
    ensures { Answers space.old (request.finish subgoal) (said_finish result) [] space.new }
{
    let h = read_header(space)?;
    finish_in(space, h, wide(subgoal))
}
