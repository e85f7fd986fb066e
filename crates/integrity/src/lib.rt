// A check of a whole space: whether its records are those of some table, or which of them is the first that is not. It
// takes a pass over the nodes, the subgoals and the answers, a search among its siblings for each node, and no memory.
#![tactic(auto)]

mod chains;
mod firsts;
mod nodes;
mod passes;
mod paths;
mod records;

ghost use Rattle.std.specs.Prelude.{◌≡◌};
ghost use Rattle.plain.specs.Coding.{coding_of};
ghost use Rattle.store.specs.Clauses.{view_at};
ghost use Rattle.agreement.specs.Faults.{fault_in, fault_of};
ghost use Rattle.integrity.specs.Tests.{said_check, ChainsWhole, chains_fault};

use chains::{chains_length, first_lost};
use nodes::first_node;
use records::{first_answer, first_subgoal};
use space::tables::Table;

// What is broken first: the header, or the record of this number.
#[derive(Clone, Copy)]
pub enum Broken {
    Header,
    Node(u32),
    Subgoal(u32),
    Answer(u32),
}

// Where every record by itself is whole: the chains.
fn check_chains(table: &Table) -> Result<(), Broken>
    requires { ChainsWhole table.now }
    ensures { said_check result ≡ chains_fault table.now }
{
    if chains_length(table) == table.head.answers {
        return Ok(());
    }
    let a = first_lost(table);
    Err(Broken::Answer((a + 1) as u32))
}

// Under a sound header.
fn check_in(table: &Table) -> Result<(), Broken>
    ensures { said_check result ≡ fault_in (coding_of table.now.head.edition) (view_at table.now) }
{
    let n = first_node(table);
    if n < table.head.nodes {
        return Err(Broken::Node(n as u32));
    }
    let s = first_subgoal(table);
    if s < table.head.subgoals {
        return Err(Broken::Subgoal((s + 1) as u32));
    }
    let a = first_answer(table);
    if a < table.head.answers {
        return Err(Broken::Answer((a + 1) as u32));
    }
    check_chains(table)
}

// Is the space whole?
pub fn check(space: &[u32]) -> Result<(), Broken>
    ensures { said_check result ≡ fault_of space.now }
{
    match Table::open(space) {
        Ok(table) => check_in(&table),
        Err(_) => Err(Broken::Header),
    }
}
