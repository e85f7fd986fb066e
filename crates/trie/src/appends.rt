// A path of new nodes, appended.
ghost use Rattle.std.specs.Prelude.{◌≡◌, slice_set};
ghost use Rattle.space.specs.Layout.{sizes};
ghost use Rattle.trie.specs.Append.{lead_cell, append_node, append_path, NewNode, PathRoom};

use space::Node;
use space::records::{write_child, write_node, write_sibling};

// The cell that is to lead to node n, a new child of `parent` whose last child is `last`, written.
fn lead_to(space: &mut [u32], capacity: usize, n: usize, parent: usize, last: usize)
    requires { NewNode space.old capacity n parent last }
    ensures { space.new ≡ slice_set space.old (lead_cell sizes parent last) n }
{
    if last == 0 {
        write_child(space, capacity, parent, n as u32);
    } else {
        write_sibling(space, capacity, last, n as u32);
    }
}

// Node n, the next one, below `parent`.
fn append_node(space: &mut [u32], capacity: usize, n: usize, parent: usize, last: usize, token: u32)
    requires { NewNode space.old capacity n parent last }
    ensures { space.new ≡ append_node sizes space.old n parent last token }
{
    lead_to(space, capacity, n, parent, last);
    let y = Node {
        token,
        child: 0,
        sibling: 0,
        parent,
        link: 0,
    };
    write_node(space, capacity, n, y);
}

// A node for each token, numbered from `nodes`, below `parent`. The caller knows that there is room.
pub fn append_path(
    space: &mut [u32],
    capacity: usize,
    nodes: usize,
    parent: usize,
    last: usize,
    tokens: &[u32],
)
    requires { PathRoom space.old capacity nodes parent last tokens.now }
    ensures { space.new ≡ append_path sizes space.old nodes parent last tokens.now }
{
    let mut above = parent;
    let mut after = last;
    for (i, &token) in tokens.iter().enumerate() {
        let n = nodes + i;
        append_node(space, capacity, n, above, after, token);
        above = n;
        after = 0;
    }
}
