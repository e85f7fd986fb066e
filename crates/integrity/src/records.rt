// The subgoals and the answers, one after another: each is linked from its leaf, its path is a form of legal terms, and
// the answers that it names are answers to the same subgoal.
ghost use Rattle.std.specs.Prelude.{◌≡◌, ◌≤◌};
ghost use Rattle.plain.specs.Coding.{coding_of};
ghost use Rattle.store.specs.Clauses.{view_at};
ghost use Rattle.agreement.specs.Whole.{ends_whole};
ghost use Rattle.agreement.specs.Faults.{subgoal_broken, answer_broken};
ghost use Rattle.integrity.specs.Tests.{subgoal_stands, answers_to, answer_stands, next_whole};
ghost use Rattle.integrity.specs.Tests.{subgoal_test, answer_test, SubgoalOfNumber, AnswerOfNumber};
ghost use Rattle.integrity.specs.Tests.{NodesWhole, SubgoalAmongWhole};

use super::firsts::led_up;
use super::passes::first_failing;
use super::paths::path_whole;
use space::tables::Table;
use space::{Answer, Subgoal};
use trie::ends::{answer_end, subgoal_end};

// Its leaf is linked to it, its answer root follows the leaf, and its state is one that there is.
#[tactic(auto, unfolding(crate::specs::Tests::subgoal_stands))]
fn subgoal_stands(table: &Table, s: usize, g: Subgoal) -> bool
    requires { SubgoalOfNumber table.now s g }
    ensures { result ≡ subgoal_stands (view_at table.now) s }
{
    if table.head.nodes <= g.root || g.root <= g.leaf || g.root - g.leaf != 1 {
        return false;
    }
    let root = table.node(g.root);
    let leaf = table.node(g.leaf);
    root.parent == g.root && leaf.link == s && g.state <= 1
}

// Is a an answer to subgoal s?
#[tactic(auto, unfolding(crate::specs::Tests::answers_to))]
fn answers_to(table: &Table, a: usize, s: usize) -> bool
    ensures { result ≡ answers_to (view_at table.now) a s }
{
    0 < a && a <= table.head.answers && table.answer(a).subgoal == s
}

// The first and the last answer of subgoal s.
#[tactic(auto, unfolding(agreement::specs::Whole::ends_whole, crate::specs::Tests::answers_to))]
fn ends_whole(table: &Table, s: usize, g: Subgoal) -> bool
    requires { SubgoalOfNumber table.now s g }
    ensures { result ≡ ends_whole (coding_of table.now.head.edition) (view_at table.now) s }
{
    if g.last == 0 {
        return g.first == 0;
    }
    if !answers_to(table, g.first, s) || table.head.answers < g.last {
        return false;
    }
    let y = table.answer(g.last);
    y.subgoal == s && y.next == 0
}

// Subgoal s, where all nodes are whole.
#[tactic(auto, unfolding(agreement::specs::Whole::subgoal_whole, crate::specs::Tests::subgoal_stands))]
fn subgoal_whole(table: &Table, s: usize) -> bool
    requires { SubgoalAmongWhole table.now s }
    ensures { result ≡ subgoal_test table.now s }
{
    let g = table.subgoal(s);
    subgoal_stands(table, s, g)
        && path_whole(
            table.cells,
            subgoal_end(table.head, g),
            g.variables,
            true,
            table.head.edition,
        )
        && ends_whole(table, s, g)
        && led_up(table, s, g.leaf)
}

// One less than the first subgoal that is not whole; the subgoals used where all are. All nodes are whole.
pub fn first_subgoal(table: &Table) -> usize
    requires { NodesWhole table.now table.now.head.nodes }
    ensures { result ≡ subgoal_broken (coding_of table.now.head.edition) (view_at table.now) }
{
    first_failing(table.head.subgoals, |i| subgoal_whole(table, i + 1))
}

// Its subgoal is one that there is, and its leaf is linked to it.
#[tactic(auto, unfolding(crate::specs::Tests::answer_stands))]
fn answer_stands(table: &Table, a: usize, y: Answer) -> bool
    requires { AnswerOfNumber table.now a y }
    ensures { result ≡ answer_stands (view_at table.now) a }
{
    if y.subgoal == 0 || table.head.subgoals < y.subgoal || table.head.nodes <= y.leaf {
        return false;
    }
    table.node(y.leaf).link == a
}

// Its next answer is above it, and one to the same subgoal.
fn next_whole(table: &Table, a: usize, y: Answer) -> bool
    requires { AnswerOfNumber table.now a y }
    ensures { result ≡ next_whole (view_at table.now) a }
{
    if y.next == 0 {
        return true;
    }
    a < y.next && y.next <= table.head.answers && table.answer(y.next).subgoal == y.subgoal
}

// Answer a.
#[tactic(auto, unfolding(agreement::specs::Whole::answer_whole, crate::specs::Tests::answer_stands))]
fn answer_whole(table: &Table, a: usize) -> bool
    requires { (1 ≤ a) × (a ≤ table.now.head.answers) }
    ensures { result ≡ answer_test table.now a }
{
    let y = table.answer(a);
    if !answer_stands(table, a, y) {
        return false;
    }
    let g = table.subgoal(y.subgoal);
    path_whole(
        table.cells,
        answer_end(table.head, g, y),
        g.variables,
        false,
        table.head.edition,
    ) && next_whole(table, a, y)
}

// One less than the first answer that is not whole; the answers used where all are.
pub fn first_answer(table: &Table) -> usize
    ensures { result ≡ answer_broken (coding_of table.now.head.edition) (view_at table.now) }
{
    first_failing(table.head.answers, |i| answer_whole(table, i + 1))
}
