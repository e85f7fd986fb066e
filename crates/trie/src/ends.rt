// Where the paths of records end, each built in one place.
ghost use Rattle.std.specs.Prelude.{◌≡◌};
ghost use Rattle.trie.specs.Ends.{answer_end, subgoal_end};

use super::End;
use space::{Answer, Head, Subgoal};

// The path of answer y to a subgoal whose record is g.
pub fn answer_end(h: Head, g: Subgoal, y: Answer) -> End
    ensures { result ≡ answer_end h g y }
{
    End {
        nodes: h.nodes,
        links: h.answers,
        root: g.root,
        leaf: y.leaf,
    }
}

// The path of a subgoal whose record is g.
pub fn subgoal_end(h: Head, g: Subgoal) -> End
    ensures { result ≡ subgoal_end h g }
{
    End {
        nodes: h.nodes,
        links: h.subgoals,
        root: 0,
        leaf: g.leaf,
    }
}
