// The tokens of a copy: which can be stored in edition 2, and what they become there.
ghost use Rattle.std.specs.Prelude.{◌≡◌, true};
ghost use Rattle.space.specs.Sound.{Bounds};
ghost use Rattle.store.specs.Clauses.{view_in};
ghost use Rattle.carrying.specs.Recoding.{wider, name_fits, widening, recoded, takes_word};
ghost use Rattle.carrying.specs.Quick.{takes_nodes};

use sources::tokens::{PAYLOADS, is_named};
use space::Head;
use space::records::node_in;

const FUNCTORS: u32 = 1073741824;

// The token in edition 2.
pub fn widened(x: u32) -> u32
    requires { name_fits x ≡ true }
    ensures { result ≡ wider x }
{
    if x / PAYLOADS == 4 {
        let p = x % PAYLOADS;
        return FUNCTORS + (p / 16 * 256 + p % 16);
    }
    x
}

// All tokens of a form, in place.
pub fn recode(form: &mut [u32])
    requires { takes_word widening form.old ≡ true }
    ensures { form.new ≡ recoded widening form.old }
{
    for x in form.iter_mut() {
        *x = widened(*x);
    }
}

// The token of every node.
pub fn are_named(space: &[u32], h: Head) -> bool
    requires { Bounds space.now h }
    ensures { result ≡ takes_nodes widening (view_in space.now h) }
{
    for i in 0..h.nodes {
        if !is_named(node_in(space, h.nodes, i).token) {
            return false;
        }
    }
    true
}
