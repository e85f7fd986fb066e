// First children, where every node by itself is whole: so they rise, and parents fall. From each node above the leaf of
// a subgoal they must lead to a subgoal that is no later.
ghost use Rattle.std.specs.Prelude.{◌≡◌};
ghost use Rattle.plain.specs.Coding.{coding_of};
ghost use Rattle.store.specs.Clauses.{view_at};
ghost use Rattle.agreement.specs.Whole.{led_up};
ghost use Rattle.integrity.specs.Tests.{NodeAmongWhole, LeafReached};

use basis::limits::MOST_TOKENS;
use space::tables::Table;

// Where first children lead from node i.
fn first_leaf(table: &Table, i: usize) -> usize
    requires { NodeAmongWhole table.now i }
    ensures { LeafReached table.now i result }
{
    let mut j = i;
    loop {
        let y = table.node(j);
        if y.child == 0 {
            return j;
        }
        j = y.child;
    }
}

// From each node above node i but the root, to a leaf whose link is at most s?
pub fn led_up(table: &Table, s: usize, i: usize) -> bool
    requires { NodeAmongWhole table.now i }
    ensures { result ≡ led_up (coding_of table.now.head.edition) (view_at table.now) 383 s i }
{
    let mut n = i;
    for _ in 0..MOST_TOKENS {
        let y = table.node(n);
        let p = y.parent;
        let above = table.node(p);
        if above.parent == p {
            return true;
        }
        let leaf = first_leaf(table, p);
        let z = table.node(leaf);
        if s < z.link {
            return false;
        }
        n = p;
    }
    true
}
