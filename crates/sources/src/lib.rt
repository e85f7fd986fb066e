// What loads of a source, sound or damaged: its records and their paths, no two alike; and what a copy of it into
// edition 2 asks for: room for the names and for the nodes. Subgoals and answers go the same way, a subgoal as an
// answer to no subgoal. Nothing is written: each form is compared with those before it, so the time goes with the
// square of the subgoals and of the answers to each. A source that passes the check of a whole space needs none of
// this.
#![tactic(auto)]

mod comparing;
pub mod loading;
mod names;
pub mod tokens;

ghost use Rattle.std.specs.Prelude.{◌≡◌, true};
ghost use Rattle.plain.specs.Coding.{coding_of};
ghost use Rattle.store.specs.Clauses.{view_in};
ghost use Rattle.agreement.specs.Whole.{table_read};
ghost use Rattle.carrying.specs.Recoding.{widening};
ghost use Rattle.carrying.specs.Carrying.{takes_table};
ghost use Rattle.carrying.specs.Copying.{source_loads};
ghost use Rattle.carrying.specs.Clauses.{slow_fits};
ghost use Rattle.sources.specs.Records.{FirstEdition, Loads, subgoals_of, answers_of};

use basis::wide;
use comparing::{all_differ, brought};
use loading::all_load;
use names::all_named;
use space::Head;
use trie::End;

// Which records.
#[derive(Clone, Copy)]
pub enum Kind {
    Subgoals,
    Answers,
}

// The records of a kind under a head.
#[derive(Clone, Copy)]
pub struct Records {
    pub h: Head,
    pub kind: Kind,
}

impl Records {
    pub fn subgoals(h: Head) -> Records
        ensures { result ≡ subgoals_of h }
    {
        Records {
            h,
            kind: Kind::Subgoals,
        }
    }

    pub fn answers(h: Head) -> Records
        ensures { result ≡ answers_of h }
    {
        Records {
            h,
            kind: Kind::Answers,
        }
    }
}

// Where the form of a record stands: under which subgoal, 0 for a subgoal's own, since no subgoal has that number, and
// the end of its path.
#[derive(Clone, Copy)]
pub struct Place {
    pub owner: usize,
    pub end: End,
}

// A record against those before it: the tokens past the longest prefix that its form shares with one of them under the
// same subgoal, and whether it is one of those.
#[derive(Clone, Copy)]
pub struct Compared {
    pub tokens: usize,
    pub held: bool,
}

// Does every subgoal and every answer load, and are no two alike?
pub fn loads(source: &[u32], h: Head) -> bool
    requires { FirstEdition source.now h }
    ensures { result ≡ source_loads (coding_of 1) (view_in source.now h) }
{
    let subgoals = Records::subgoals(h);
    let answers = Records::answers(h);
    if !all_load(source, subgoals) || !all_load(source, answers) {
        return false;
    }
    all_differ(source, subgoals) && all_differ(source, answers)
}

// Has edition 2 room for the names in all forms of a source that loads?
pub fn forms_named(source: &[u32], h: Head) -> bool
    requires { Loads source.now h }
    ensures { result ≡ takes_table widening (table_read (view_in source.now h)) }
{
    all_named(source, Records::subgoals(h)) && all_named(source, Records::answers(h))
}

// Are n nodes, f subgoals and a answers enough for a source that loads? Its nodes: a root for the subgoals, one for the
// answers to each, and what the forms bring.
pub fn forms_fit(source: &[u32], h: Head, n: u32, f: u32, a: u32) -> bool
    requires { Loads source.now h }
    ensures { result ≡ slow_fits n f a (view_in source.now h) }
{
    if wide(f) < h.subgoals || wide(a) < h.answers {
        return false;
    }
    let called = brought(source, Records::subgoals(h));
    let given = brought(source, Records::answers(h));
    1 + called + h.subgoals as u64 + given <= u64::from(n)
}
