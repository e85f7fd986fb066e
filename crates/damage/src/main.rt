// Every reader on a small space, each cell of which is damaged in turn. The expected output is an independent model's.
#![tactic(auto)]

ghost use Rattle.std.specs.Prelude.{◌+◌, ◌<◌, ◌≤◌, length};
ghost use Rattle.space.specs.Sound.{Bounds, NodesIn};
ghost use Rattle.trie.specs.Runs.{Ends};

use space::heading::read_header;
use space::records::{read_answer, read_node, read_subgoal};
use space::{Answer, Head, Node, Subgoal};
use std::io;
use trie::paths::{CELLS, LEVELS, few_path, whole_path};
use trie::walks::walk_tokens;
use trie::{End, Walked};

// How many answers were damage, and a sum over all answers in order.
#[derive(Clone, Copy)]
struct Tally {
    damaged: u64,
    sum: u64,
}

// The cells of the space.
const CELLS_IN_ALL: usize = 116;

// Puts cells at a place.
fn put(space: &mut [u32; CELLS_IN_ALL], from: usize, cells: &[u32])
    requires { from + length cells.now ≤ 116 }
{
    space[from..from + cells.len()].copy_from_slice(cells);
}

// The nodes, two to a line: of f(X, a), f(X, b) and g(X), which were called, of the roots of their answers, and of
// these.
fn put_nodes(space: &mut [u32; CELLS_IN_ALL]) {
    put(space, 8, &[0, 1, 0, 0, 0, 0x40000012, 2, 5, 0, 0]);
    put(space, 18, &[0x10000000, 3, 0, 1, 0, 0x20000005, 0, 8, 2, 1]);
    put(space, 28, &[0, 10, 0, 4, 0, 0x40000021, 6, 0, 0, 0]);
    put(space, 38, &[0x10000000, 0, 0, 5, 2, 0, 12, 0, 7, 0]);
    put(space, 48, &[0x20000006, 0, 0, 2, 3, 0, 0, 0, 9, 0]);
    put(
        space,
        58,
        &[0x20000005, 0, 11, 4, 1, 0x20000006, 0, 0, 4, 2],
    );
    put(space, 68, &[0x20000005, 0, 0, 7, 3]);
}

// The small space: its header, nodes, subgoals and answers, each with room for one more, and two cells behind its end.
fn small() -> [u32; CELLS_IN_ALL] {
    let mut space = [0u32; CELLS_IN_ALL];
    put(&mut space, 0, &[1, 13, 3, 3, 8, 78, 102, 114]);
    put_nodes(&mut space);
    put(
        &mut space,
        78,
        &[3, 4, 1, 0, 1, 2, 6, 7, 1, 1, 3, 3, 8, 9, 1],
    );
    put(&mut space, 102, &[10, 1, 2, 11, 1, 0, 12, 2, 0]);
    put(&mut space, 114, &[7, 7]);
    space
}

fn more(count: u64) -> u64 {
    count.wrapping_add(1)
}

// The sum with one number more.
fn mixed(sum: u64, number: u64) -> u64 {
    (sum % 4294967296 * 31 + number % 4294967296) % 4294967296
}

fn mixed_index(sum: u64, number: usize) -> u64 {
    mixed(sum, number as u64)
}

fn mixed_cell(sum: u64, cell: u32) -> u64 {
    mixed(sum, cell as u64)
}

fn started() -> Tally {
    Tally { damaged: 0, sum: 1 }
}

fn with_damage(t: Tally) -> Tally {
    Tally {
        damaged: more(t.damaged),
        sum: mixed(t.sum, 0),
    }
}

fn with_sum(t: Tally, sum: u64) -> Tally {
    Tally { sum, ..t }
}

fn with_node(t: Tally, y: Node) -> Tally {
    let token = mixed_cell(mixed(t.sum, 1), y.token);
    let child = mixed_index(token, y.child);
    let sibling = mixed_index(child, y.sibling);
    let parent = mixed_index(sibling, y.parent);
    let link = mixed_index(parent, y.link);
    with_sum(t, link)
}

fn with_subgoal(t: Tally, y: Subgoal) -> Tally {
    let leaf = mixed_index(mixed(t.sum, 1), y.leaf);
    let root = mixed_index(leaf, y.root);
    let variables = mixed_index(root, y.variables);
    let state = mixed_index(variables, y.state);
    let first = mixed_index(state, y.first);
    let last = mixed_index(first, y.last);
    with_sum(t, last)
}

fn with_answer(t: Tally, y: Answer) -> Tally {
    let leaf = mixed_index(mixed(t.sum, 1), y.leaf);
    let subgoal = mixed_index(leaf, y.subgoal);
    let next = mixed_index(subgoal, y.next);
    with_sum(t, next)
}

fn with_head(t: Tally, h: Head) -> Tally {
    let nodes = mixed_index(mixed(t.sum, 1), h.nodes);
    let subgoals = mixed_index(nodes, h.subgoals);
    let answers = mixed_index(subgoals, h.answers);
    let node_capacity = mixed_index(answers, h.node_capacity);
    let subgoal_capacity = mixed_index(node_capacity, h.subgoal_capacity);
    let answer_capacity = mixed_index(subgoal_capacity, h.answer_capacity);
    let subgoal_offset = mixed_index(answer_capacity, h.subgoal_offset);
    let answer_offset = mixed_index(subgoal_offset, h.answer_offset);
    let end = mixed_index(answer_offset, h.end);
    with_sum(t, end)
}

fn with_walk(t: Tally, w: Walked) -> Tally {
    match w {
        Walked::Whole(n) => with_sum(t, mixed_index(mixed(mixed(t.sum, 1), 1), n)),
        Walked::Stopped(n, last, left) => {
            let node = mixed_index(mixed(mixed(t.sum, 1), 2), n);
            with_sum(t, mixed_index(mixed_index(node, last), left))
        }
        Walked::Damaged => with_damage(t),
    }
}

// A path's tokens, their number first.
fn with_tokens(t: Tally, tokens: &[u32]) -> Tally {
    let start = mixed_index(mixed(t.sum, 1), tokens.len());
    with_sum(
        t,
        tokens.iter().fold(start, |s, &token| mixed_cell(s, token)),
    )
}

fn nodes_of(space: &[u32], nodes: usize, links: usize, start: Tally) -> Tally
    requires { NodesIn space.now nodes }
{
    let mut t = start;
    for n in 0..nodes {
        t = match read_node(space, nodes, links, n) {
            Some(y) => with_node(t, y),
            None => with_damage(t),
        };
    }
    t
}

fn subgoals_of(space: &[u32], h: Head) -> Tally
    requires { Bounds space.now h }
{
    let mut t = started();
    for s in 1..=h.subgoals {
        t = match read_subgoal(space, h, s) {
            Some(y) => with_subgoal(t, y),
            None => with_damage(t),
        };
    }
    t
}

fn answers_of(space: &[u32], h: Head) -> Tally
    requires { Bounds space.now h }
{
    let mut t = started();
    for a in 1..=h.answers {
        t = match read_answer(space, h, a) {
            Some(y) => with_answer(t, y),
            None => with_damage(t),
        };
    }
    t
}

fn walks_of(space: &[u32], nodes: usize, links: usize, tokens: &[u32], start: Tally) -> Tally
    requires { NodesIn space.now nodes }
{
    let mut t = start;
    for root in 0..nodes {
        t = with_walk(
            t,
            walk_tokens(space, nodes, links, root, tokens, &[], nodes),
        );
    }
    t
}

// From every root, with the links held to the subgoals and then to the answers.
fn walks_both(space: &[u32], h: Head, tokens: &[u32], start: Tally) -> Tally
    requires { Bounds space.now h }
{
    let t = walks_of(space, h.nodes, h.subgoals, tokens, start);
    walks_of(space, h.nodes, h.answers, tokens, t)
}

fn all_walks(space: &[u32], h: Head) -> Tally
    requires { Bounds space.now h }
{
    let a: [u32; 3] = [1073741842, 268435456, 536870917];
    let b: [u32; 3] = [1073741842, 268435456, 536870918];
    let c: [u32; 4] = [1073741842, 268435456, 536870919, 536870920];
    let d: [u32; 2] = [1073741857, 268435456];
    let e: [u32; 1] = [536870918];
    let f: [u32; 0] = [];
    let t = walks_both(space, h, &a, started());
    let u = walks_both(space, h, &b, t);
    let v = walks_both(space, h, &c, u);
    let w = walks_both(space, h, &d, v);
    let x = walks_both(space, h, &e, w);
    walks_both(space, h, &f, x)
}

// The path to an end, in the cells of a whole path.
fn one_path(space: &[u32], end: End, t: Tally) -> Tally
    requires { Ends space.now end }
{
    let mut few = [0u32; LEVELS];
    let begun = few_path(space, end, &mut few);
    let mut path = [0u32; CELLS];
    let k = whole_path(space, end, begun, &few, &mut path);
    if k == 0 {
        return with_damage(t);
    }
    with_tokens(t, &path[k..])
}

fn paths_to(space: &[u32], nodes: usize, links: usize, root: usize, start: Tally) -> Tally
    requires { NodesIn space.now nodes }
{
    let mut t = start;
    for leaf in 0..nodes {
        let end = End {
            nodes,
            links,
            root,
            leaf,
        };
        t = one_path(space, end, t);
    }
    t
}

fn paths_of(space: &[u32], nodes: usize, links: usize, start: Tally) -> Tally
    requires { NodesIn space.now nodes }
{
    let mut t = start;
    for root in 0..nodes {
        t = paths_to(space, nodes, links, root, t);
    }
    t
}

fn all_paths(space: &[u32], h: Head) -> Tally
    requires { Bounds space.now h }
{
    let t = paths_of(space, h.nodes, h.subgoals, started());
    paths_of(space, h.nodes, h.answers, t)
}

fn show(rt: &impl Print, t: Tally) -> io::Result<()> {
    print!(rt; " {} {}", t.damaged, t.sum)
}

// What the readers of records answer under a sound header.
fn records(rt: &impl Print, space: &[u32], h: Head) -> io::Result<()>
    requires { Bounds space.now h }
{
    let nodes = nodes_of(space, h.nodes, h.subgoals, started());
    show(rt, nodes_of(space, h.nodes, h.answers, nodes))?;
    show(rt, subgoals_of(space, h))?;
    show(rt, answers_of(space, h))?;
    show(rt, all_walks(space, h))?;
    show(rt, all_paths(space, h))
}

// What every reader answers on the space.
fn readings(rt: &impl Print, space: &[u32]) -> io::Result<()> {
    let Ok(h) = read_header(space) else {
        return println!(rt; " refused 1");
    };
    show(rt, with_head(started(), h))?;
    records(rt, space, h)?;
    println!(rt)
}

// The readings with cell i set to the value.
fn trial(rt: &impl Print, space: &mut [u32; CELLS_IN_ALL], i: usize, value: u32) -> io::Result<()>
    requires { i < 116 }
{
    print!(rt; "{i} {value}")?;
    let old = space[i];
    space[i] = value;
    let read = readings(rt, space);
    space[i] = old;
    read
}

fn trials(rt: &impl Print, space: &mut [u32; CELLS_IN_ALL], i: usize) -> io::Result<()>
    requires { i < 116 }
{
    let old = space[i];
    trial(rt, space, i, 0)?;
    trial(rt, space, i, 1)?;
    trial(rt, space, i, old.wrapping_sub(1))?;
    trial(rt, space, i, old.wrapping_add(1))?;
    trial(rt, space, i, 4294967295)
}

fn main(rt: HostRuntime) -> io::Result<()> {
    let mut space = small();
    print!(rt; "whole")?;
    readings(&rt, &space)?;
    for i in 0..CELLS_IN_ALL {
        trials(&rt, &mut space, i)?;
    }
    Ok(())
}
