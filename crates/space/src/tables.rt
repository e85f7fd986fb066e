// A table that is read: its cells, and what its header says of them.
ghost use Rattle.std.specs.Prelude.{◌≡◌, ◌<◌, ◌≤◌};
ghost use Rattle.space.specs.Layout.{sizes, node_in};
ghost use Rattle.space.specs.Judging.{read_subgoal, read_answer};
ghost use Rattle.space.specs.Sound.{Bounds, subgoal_under, answer_under};

use super::heading::read_header;
use super::{Answer, Head, Node, Subgoal, records};
use basis::refusals::Refusal;

// Its functions take it by reference: by value it would be passed through memory.
#[derive(Clone, Copy)]
pub struct Table<'a> {
    pub cells: &'a [u32],
    pub head: Head,
    pub ghost within: { Bounds cells.now head },
}

impl<'a> Table<'a> {
    ghost use Rattle.space.specs.Tables.{Opened};

    // The table in these cells, unless its header is refused.
    pub fn open(cells: &'a [u32]) -> Result<Table<'a>, Refusal>
        ensures { Opened cells.now result }
    {
        let head = read_header(cells)?;
        Ok(Table { cells, head })
    }

    // Node n as it stands.
    pub fn node(&self, n: usize) -> Node
        requires { n < self.now.head.nodes }
        ensures { result ≡ node_in sizes self.now.cells.now n }
    {
        records::node_in(self.cells, self.head.nodes, n)
    }

    // Subgoal s as it stands.
    pub fn subgoal(&self, s: usize) -> Subgoal
        requires { (1 ≤ s) × (s ≤ self.now.head.subgoals) }
        ensures { result ≡ subgoal_under self.now.cells.now self.now.head s }
    {
        records::subgoal_in(self.cells, self.head, s)
    }

    // Answer a as it stands.
    pub fn answer(&self, a: usize) -> Answer
        requires { (1 ≤ a) × (a ≤ self.now.head.answers) }
        ensures { result ≡ answer_under self.now.cells.now self.now.head a }
    {
        records::answer_in(self.cells, self.head, a)
    }

    pub fn read_subgoal(&self, s: usize) -> Option<Subgoal>
        requires { (1 ≤ s) × (s ≤ self.now.head.subgoals) }
        ensures { result ≡ read_subgoal self.now.head.nodes self.now.head.answers
            (subgoal_under self.now.cells.now self.now.head) s }
    {
        records::read_subgoal(self.cells, self.head, s)
    }

    pub fn read_answer(&self, a: usize) -> Option<Answer>
        requires { (1 ≤ a) × (a ≤ self.now.head.answers) }
        ensures { result ≡ read_answer self.now.head.nodes self.now.head.subgoals self.now.head.answers
            (answer_under self.now.cells.now self.now.head) a }
    {
        records::read_answer(self.cells, self.head, a)
    }
}
