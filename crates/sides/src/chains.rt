// The answers of a source, judged one after another: each record as next judges it, each path as load does, and whether
// all forms pass a test.
ghost use Rattle.std.specs.Prelude.{◌≡◌, ◌≤◌};
ghost use Rattle.space.specs.Sound.{subgoal_under};
ghost use Rattle.trie.specs.Runs.{Ends, path_to};
ghost use Rattle.store.specs.Clauses.{Held};
ghost use Rattle.sides.specs.Chains.{free, PathJudged, MemberRead, AllJudged, ChainJudged};

use super::{Judged, Member};
use path_terms::path_worth;
use space::tables::Table;
use space::{Head, Subgoal};
use trie::End;
use trie::ends::answer_end;

// Answer a, which is to be the subgoal's; nothing where it is damaged.
fn read_member(table: &Table, s: usize, g: Subgoal, a: usize) -> Option<Member>
    requires { (g ≡ subgoal_under table.now.cells.now table.now.head s) × (1 ≤ a) × (a ≤ table.now.head.answers) }
    ensures { MemberRead table.now s g a result }
{
    let y = table.read_answer(a)?;
    if y.subgoal != s {
        return None;
    }
    Some(Member {
        next: y.next,
        end: answer_end(table.head, g, y),
    })
}

// Do the forms of all answers of subgoal s pass, whose record is g, as `judge` tells by their paths? Nothing where one
// is damaged: those after one that does not pass are judged too.
pub fn judge_all<F: Fn(End) -> Option<bool>>(
    table: &Table,
    s: usize,
    g: Subgoal,
    judge: F,
) -> Option<bool>
    requires is { g ≡ subgoal_under table.now.cells.now table.now.head s }
    requires first_le_answers { g.first ≤ table.now.head.answers }
    requires callable { (end : _) → Ends table.now.cells.now end → F.pre judge end }
    ensures { AllJudged (F.post judge) table.now s g.variables result }
{
    let mut a = g.first;
    let mut all = true;
    while a != 0 {
        let member = read_member(table, s, g, a)?;
        let passes = judge(member.end)?;
        all &= passes;
        a = member.next;
    }
    Some(all)
}

// Does the path of an answer, from its leaf up, hold no variable? Nothing where it is damaged.
fn judge_path(space: &[u32], end: End, m: usize, edition: u32) -> Option<bool>
    requires { Ends space.now end }
    ensures { PathJudged free edition (path_to space.now end) m result }
{
    match path_worth(space, end, m, false, edition) {
        0 => None,
        1 => Some(true),
        _ => Some(false),
    }
}

// All answers of subgoal s, whose record is g. Of cells and header and no Table: join goes on to write these cells.
pub fn judge(space: &[u32], h: Head, s: usize, g: Subgoal) -> Judged
    requires held { Held space.now h s g }
    requires first_le_answers { g.first ≤ h.answers }
    ensures { ChainJudged space.now h s result }
{
    let table = Table {
        cells: space,
        head: h,
    };
    let ground = |end| judge_path(space, end, g.variables, h.edition);
    match judge_all(&table, s, g, ground) {
        None => Judged::Damaged,
        Some(true) => Judged::Ground,
        Some(false) => Judged::Variable,
    }
}
