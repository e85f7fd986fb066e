// The tokens of a path, gathered from its end up to its root by recursion on the parent: the node number falls at each
// step until the root, within a run (`climb`) and from run to run (`climb_runs`). The space is lent as `&&[u32]`: a
// slice itself would be copied to the stack for each call, which keeps the compiler from making a loop of the last
// call. The cells of one run are all that most paths need, and few enough to be cleared in no time that was measured; a
// caller lends the cells of a whole path only where the path turns out to be longer.
ghost use Rattle.std.specs.Prelude.{◌≡◌, ◌+◌, ◌*◌, ◌<◌, ◌≤◌, length};
ghost use Rattle.space.specs.Sound.{NodesIn};
ghost use Rattle.trie.specs.Runs.{levels, path_cells, Climbs, RunCopied, RunBegun, ClimbsRuns};
ghost use Rattle.trie.specs.Runs.{Ends, Begun, GathersWhole};

use super::End;
use basis::limits::MOST_TOKENS;
use space::records::read_rising_node;

// The levels of a run.
pub const LEVELS: usize = 64;

// The cells of a whole path: one more than it has tokens at most, which is a whole number of runs.
pub const CELLS: usize = MOST_TOKENS + 1;

// Its runs.
const RUNS: usize = CELLS / LEVELS;

// What `climb` answers for damage, and the least that it answers for a node to go on from.
const LOST: usize = LEVELS + 1;

const ON: usize = LEVELS + 2;

// The tokens of node n and of those above it, at most `left` of them, written to the first `left` cells of run from
// behind. Where the root is reached: how many cells are left; where no cell is: ON and the node to go on from. A plain
// number is answered, and not an enum, since that comes back in a register at every level.
fn climb(
    space: &&[u32],
    nodes: usize,
    links: usize,
    root: usize,
    n: usize,
    left: usize,
    run: &mut [u32; LEVELS],
) -> usize
    requires nodes_in { NodesIn space.now.now nodes × (n < nodes) }
    requires le_left { (1 ≤ left) × (left ≤ levels) × (length run.old ≡ levels) }
    ensures { Climbs space.now.now nodes links root n left run.old run.new result }
{
    let Some(y) = read_rising_node(*space, nodes, links, n) else {
        return LOST;
    };
    if y.parent == n {
        return if n == root { left } else { LOST };
    }
    let at = left - 1;
    run[at] = y.token;
    if at == 0 {
        return ON + y.parent;
    }
    climb(space, nodes, links, root, y.parent, at, run)
}

// The path in the cells of a run: where it starts, or a number above LEVELS where it is longer, and then they hold its
// last tokens, or where it is damaged.
pub fn few_path(space: &[u32], end: End, cells: &mut [u32; LEVELS]) -> usize
    requires { Ends space.now end × (length cells.old ≡ levels) }
    ensures { Begun space.now end result cells.new }
{
    climb(
        &space, end.nodes, end.links, end.root, end.leaf, LEVELS, cells,
    )
}

// Copies a run to the cells of path from `from` on, from behind: what was written last is read last. By
// `copy_from_slice` a load of a list of 60 took 1.17 of the time, since the run's cells have only just been written.
fn copy_run(run: &[u32; LEVELS], from: usize, path: &mut [u32])
    requires { (length run.now ≡ levels) × (from + levels ≤ length path.old) }
    ensures { RunCopied run.now from path.old path.new }
{
    for i in (0..LEVELS).rev() {
        path[from + i] = run[i];
    }
}

// A path whose last run was climbed, in the cells of so many runs, from behind: the run is copied, and where it was
// cut, the next is climbed. Where its tokens start, or 0 for none.
fn climb_runs(
    space: &&[u32],
    end: End,
    begun: usize,
    run: &[u32; LEVELS],
    runs: usize,
    path: &mut [u32],
) -> usize
    requires run_begun { RunBegun space.now.now end begun run.now }
    requires le_runs { (1 ≤ runs) × (levels * runs ≤ length path.old) }
    ensures { ClimbsRuns space.now.now end begun run.now runs path.old path.new result }
{
    let from = LEVELS * (runs - 1);
    copy_run(run, from, path);
    if begun < LOST {
        return from + begun;
    }
    if begun == LOST || runs == 1 {
        return 0;
    }
    let mut next = [0u32; LEVELS];
    let r = climb(
        space,
        end.nodes,
        end.links,
        end.root,
        begun - ON,
        LEVELS,
        &mut next,
    );
    climb_runs(space, end, r, &next, runs - 1, path)
}

// A path that was begun in the cells of a run, in those of a whole path: where it starts, or 0 for none. A number, as
// what `climb` answers is.
pub fn whole_path(
    space: &[u32],
    end: End,
    begun: usize,
    few: &[u32; LEVELS],
    path: &mut [u32; CELLS],
) -> usize
    requires { Ends space.now end × Begun space.now end begun few.now × (length path.old ≡ path_cells) }
    ensures { GathersWhole space.now end result path.new }
{
    climb_runs(&space, end, begun, few, RUNS, path)
}
