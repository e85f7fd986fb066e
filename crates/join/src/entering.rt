// The forms of a join entered, each as a single answer is. The sources are read again meanwhile: their records and
// paths stay as they are while another subgoal is answered.
ghost use Rattle.trie.specs.Index.{search_indexed};
ghost use Rattle.join.specs.Entering.{Givable, GivesForm, Enters};
ghost use Rattle.join.specs.Joining.{Enterable};

use answering::answer_at;
use pairing::{Found, Request, Sides, Walk};
use space::Head;
use space::heading::read_header;
use space::records::subgoal_in;

// A form given to subgoal s, whatever comes of it, in a join that began with so many nodes.
fn give(space: &mut [u32], h: Head, s: usize, tokens: &[u32], index: &[u32], stood: usize)
    requires { Givable space.old h s }
    ensures { GivesForm (search_indexed index.now stood) space.old h s tokens.now space.new }
{
    let g = subgoal_in(space, h, s);
    let _ = answer_at(space, h, s, g, tokens, index, stood);
}

// All forms given to subgoal s.
pub fn enter(space: &mut [u32], x: Sides, s: usize, asked: &Request)
    requires { Enterable space.old x s asked.now.pairs.now asked.now.copies.now }
    ensures { Enters (search_indexed asked.now.index.now x.h.nodes) space.old x s
        asked.now.pairs.now asked.now.copies.now space.new }
{
    let mut walk = Walk::begin(x);
    let mut y = x;
    while let Found::At(n) = walk.advance(space, y, asked) {
        give(space, y.h, s, &walk.form[..n], asked.index, x.h.nodes);
        let Ok(h) = read_header(space) else {
            return;
        };
        y.h = h;
    }
}
