// The join as a call: what is judged in its order, then the passes over its forms.
ghost use Rattle.std.specs.Prelude.{◌≡◌, [], ◌≤◌, ◌<◌, ◌^◌, Ok};
ghost use Rattle.plain.specs.Requests.{join};
ghost use Rattle.space.specs.Heading.{space_header};
ghost use Rattle.trie.specs.Walks.{root_sound};
ghost use Rattle.store.specs.Views.{answer_trie};
ghost use Rattle.trie.specs.Index.{search_indexed};
ghost use Rattle.store.specs.Calls.{Answers, AnswersIndexed};
ghost use Rattle.store.specs.Clauses.{view_in, RootIn};
ghost use Rattle.store.specs.Replies.{said_join};
ghost use Rattle.pairing.specs.Counting.{ReadyToCount};
ghost use Rattle.join.specs.Joining.{is_number, Numbered, PartiesIn, source_of, sides_of, whole_answers};
ghost use Rattle.join.specs.Joining.{ground_answers, RulesOn, Rules, Grounded, JoinsUnder, JoinsNumbered, SomeNew};
ghost use Rattle.join.specs.Joining.{sums_fit, room_for, TellsRoom, SomeNeeded, Enterable, EntersAll};
ghost use Rattle.join.specs.Trial.{Roomed, TellsInPlace};

use super::entering::enter;
use super::trial::on_trial;
use super::{Numbers, Parties};
use answering::last_sound;
use basis::refusals::Refusal;
use basis::wide;
use pairing::counting::{count, needs};
use pairing::{Request, Sides, Source, Sums};
use sides::Judged;
use sides::chains::judge;
use sides::names::named;
use space::heading::read_header;
use space::records::{read_node, read_subgoal};
use space::{Head, Subgoal};

// A subgoal as the source of a join.
fn source_of(number: usize, g: Subgoal) -> Source
    ensures { result ≡ source_of number g }
{
    Source {
        number,
        root: g.root,
        variables: g.variables,
        first: g.first,
    }
}

// The sources as the passes take them.
fn sides_of(h: Head, y: Parties) -> Sides
    ensures { result ≡ sides_of h y }
{
    Sides {
        h,
        first: source_of(y.first, y.f),
        second: source_of(y.second, y.g),
    }
}

// Is this the number of a subgoal?
#[tactic(auto, unfolding(crate::specs::Joining::is_number))]
fn is_number(subgoals: usize, s: usize) -> bool
    ensures { result ≡ is_number subgoals s }
{
    s != 0 && s <= subgoals
}

// Is the answer root of the target a sound root?
fn is_root(space: &[u32], h: Head, root: usize) -> bool
    requires { RootIn space.now h root }
    ensures { result ≡ root_sound (answer_trie (view_in space.now h)) root }
{
    let Some(y) = read_node(space, h.nodes, h.answers, root) else {
        return false;
    };
    y.parent == root
}

// Is nothing damaged among the answers of a source?
#[tactic(auto, unfolding(crate::specs::Joining::whole_answers))]
fn is_whole(j: Judged) -> bool
    ensures { result ≡ whole_answers j }
{
    !matches!(j, Judged::Damaged)
}

// Do they hold no variable?
#[tactic(auto, unfolding(crate::specs::Joining::ground_answers))]
fn is_ground(j: Judged) -> bool
    ensures { result ≡ ground_answers j }
{
    matches!(j, Judged::Ground)
}

// What the states, the sources' answers and the names refuse.
fn ruling(y: Parties, f: Judged, g: Judged, asked: &Request) -> Result<(), Refusal>
    requires { y.t.variables ≤ 32 }
    ensures { RulesOn y f g asked.now.pairs.now asked.now.copies.now result }
{
    if y.t.state != 0 {
        return Err(Refusal::State);
    }
    if y.f.state == 0 || y.g.state == 0 {
        return Err(Refusal::SourceOpen);
    }
    if is_ground(f) && is_ground(g) {
        if named(
            asked.pairs,
            asked.copies,
            y.f.variables,
            y.g.variables,
            y.t.variables,
        ) {
            return Ok(());
        }
        return Err(Refusal::Names);
    }
    Err(Refusal::SourceVariable)
}

// The same, after what is damaged.
fn rule(y: Parties, f: Judged, g: Judged, asked: &Request) -> Result<(), Refusal>
    requires { y.t.variables ≤ 32 }
    ensures { Rules y f g asked.now.pairs.now asked.now.copies.now result }
{
    if is_whole(f) && is_whole(g) {
        return ruling(y, f, g, asked);
    }
    Err(Refusal::Records)
}

// All forms are entered; how many are new is what the answers used rise by.
fn join_entered(space: &mut [u32], x: Sides, s: usize, asked: &Request) -> Result<u32, Refusal>
    requires { Enterable space.old x s asked.now.pairs.now asked.now.copies.now }
    ensures { EntersAll (search_indexed asked.now.index.now x.h.nodes) space.old x s
        asked.now.pairs.now asked.now.copies.now result
        space.new }
{
    enter(space, x, s, asked);
    let h = read_header(space)?;
    let more = h.answers - x.h.answers;
    Ok(more as u32)
}

// Is there room by the sums alone?
#[tactic(auto, unfolding(crate::specs::Joining::sums_fit))]
fn sums_fit(h: Head, y: Sums) -> bool
    requires nodes_bound { (h.nodes ≤ h.node_capacity) × (h.answers ≤ h.answer_capacity) }
    requires node_capacity_bound { (h.node_capacity < 2 ^ 32) × (h.answer_capacity < 2 ^ 32) }
    ensures { result ≡ sums_fit h y }
{
    let nodes = (h.node_capacity - h.nodes) as u64;
    let answers = (h.answer_capacity - h.answers) as u64;
    y.missing <= nodes && y.lacking <= answers
}

// Whether there is room by the exact needs.
fn full(space: &[u32], x: Sides, root: usize, asked: &Request) -> Result<(), Refusal>
    requires ready_to_count { ReadyToCount space.now x asked.now.pairs.now asked.now.copies.now }
    requires root_lt_nodes { root < x.h.nodes }
    ensures { TellsRoom (search_indexed asked.now.index.now x.h.nodes) space.now x root
        asked.now.pairs.now asked.now.copies.now result }
{
    let nodes = (x.h.node_capacity - x.h.nodes) as u64;
    let answers = (x.h.answer_capacity - x.h.answers) as u64;
    let y = needs(space, x, root, asked, nodes);
    if nodes < y.nodes {
        return Err(Refusal::Nodes);
    }
    if answers < y.answers {
        return Err(Refusal::RecordsLeft);
    }
    Ok(())
}

// The same where no node is needed, and one answer.
fn full_for_one(h: Head) -> Result<(), Refusal>
    ensures { result ≡ room_for h 0 1 }
{
    if h.answers < h.answer_capacity {
        return Ok(());
    }
    Err(Refusal::RecordsLeft)
}

// Whether there is room where some form is new. Without variables all forms are the empty one and not counted;
// others are counted on trial where that settles it. A draft takes no more nodes than the tokens that were not found.
fn room(
    space: &mut [u32],
    x: Sides,
    root: usize,
    asked: &Request,
    missing: u64,
) -> Result<(), Refusal>
    requires roomed { Roomed space.old x root asked.now.pairs.now asked.now.copies.now }
    requires some_needed { SomeNeeded (search_indexed asked.now.index.now x.h.nodes) space.old x root
        asked.now.pairs.now asked.now.copies.now }
    ensures { TellsInPlace (search_indexed asked.now.index.now x.h.nodes) space.old x root
        asked.now.pairs.now asked.now.copies.now space.new result }
{
    if asked.copies.is_empty() {
        return full_for_one(x.h);
    }
    let free = ((x.h.node_capacity - x.h.nodes) as u64).min(missing) as usize;
    match on_trial(space, x, root, asked, free) {
        Some(r) => r,
        None => full(space, x, root, asked),
    }
}

// Forms that fit, of which some are new: 9 by the last answer, 10, 11, or all are entered.
fn join_new(
    space: &mut [u32],
    h: Head,
    y: Parties,
    sums: Sums,
    asked: &Request,
) -> Result<u32, Refusal>
    requires { SomeNew (search_indexed asked.now.index.now h.nodes) space.old h y
        asked.now.pairs.now asked.now.copies.now sums }
    ensures { JoinsUnder (search_indexed asked.now.index.now h.nodes) space.old h y
        asked.now.pairs.now asked.now.copies.now result space.new }
{
    if last_sound(space, h, y.target, y.t.last) {
        let x = sides_of(h, y);
        if sums_fit(h, sums) {
            return join_entered(space, x, y.target, asked);
        }
        room(space, x, y.t.root, asked, sums.missing)?;
        return join_entered(space, x, y.target, asked);
    }
    Err(Refusal::Records)
}

// Sources that the rule lets through: 4, 9 by the searches, nothing new, or some.
fn join_ground(space: &mut [u32], h: Head, y: Parties, asked: &Request) -> Result<u32, Refusal>
    requires { Grounded space.old h y asked.now.pairs.now asked.now.copies.now }
    ensures { JoinsUnder (search_indexed asked.now.index.now h.nodes) space.old h y
        asked.now.pairs.now asked.now.copies.now result space.new }
{
    let sums = count(space, sides_of(h, y), y.t.root, asked).ok_or(Refusal::Length)?;
    if sums.sound {
        if sums.lacking == 0 {
            return Ok(0);
        }
        return join_new(space, h, y, sums, asked);
    }
    Err(Refusal::Records)
}

// The three subgoals are read: the sources' answers, then the rule.
fn join_parties(space: &mut [u32], h: Head, y: Parties, asked: &Request) -> Result<u32, Refusal>
    requires { PartiesIn space.old h y }
    ensures { JoinsUnder (search_indexed asked.now.index.now h.nodes) space.old h y
        asked.now.pairs.now asked.now.copies.now result space.new }
{
    let f = judge(space, h, y.first, y.f);
    let g = judge(space, h, y.second, y.g);
    rule(y, f, g, asked)?;
    join_ground(space, h, y, asked)
}

// Subgoals that there are: their records and the target's answer root.
fn join_known(space: &mut [u32], h: Head, a: Numbers, asked: &Request) -> Result<u32, Refusal>
    requires { Numbered space.old h a }
    ensures { JoinsNumbered (search_indexed asked.now.index.now h.nodes) space.old h a
        asked.now.pairs.now asked.now.copies.now result
        space.new }
{
    let f = read_subgoal(space, h, a.first).ok_or(Refusal::Records)?;
    let g = read_subgoal(space, h, a.second).ok_or(Refusal::Records)?;
    let t = read_subgoal(space, h, a.target).ok_or(Refusal::Records)?;
    if is_root(space, h, t.root) {
        let y = Parties {
            first: a.first,
            f,
            second: a.second,
            g,
            target: a.target,
            t,
        };
        return join_parties(space, h, y, asked);
    }
    Err(Refusal::Records)
}

// In a space whose header is sound: the numbers.
fn join_in(space: &mut [u32], h: Head, a: Numbers, asked: &Request) -> Result<u32, Refusal>
    requires { Ok h ≡ space_header space.old }
    ensures { JoinsNumbered (search_indexed asked.now.index.now h.nodes) space.old h a
        asked.now.pairs.now asked.now.copies.now result
        space.new }
{
    if is_number(h.subgoals, a.first)
        && is_number(h.subgoals, a.second)
        && is_number(h.subgoals, a.target)
    {
        return join_known(space, h, a, asked);
    }
    Err(Refusal::Number)
}

// Joins two finished subgoals into an open one.
pub fn join_indexed(
    space: &mut [u32],
    first: u32,
    second: u32,
    pairs: &[u32],
    target: u32,
    copies: &[u32],
    index: &[u32],
) -> Result<u32, Refusal>
    ensures { AnswersIndexed index.now space.old (join first second pairs.now target copies.now)
        (said_join result) [] space.new }
{
    let h = read_header(space)?;
    let a = Numbers {
        first: wide(first),
        second: wide(second),
        target: wide(target),
    };
    let asked = Request {
        pairs,
        copies,
        index,
    };
    join_in(space, h, a, &asked)
}

// The same without an index.
pub fn join(
    space: &mut [u32],
    first: u32,
    second: u32,
    pairs: &[u32],
    target: u32,
    copies: &[u32],
) -> Result<u32, Refusal>
    ensures { Answers space.old (join first second pairs.now target copies.now) (said_join result) [] space.new }
{
    join_indexed(space, first, second, pairs, target, copies, &pairs[..0])
}
