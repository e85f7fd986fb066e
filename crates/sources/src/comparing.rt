// Each record of a source that loads against those before it.
ghost use Rattle.std.specs.Prelude.{◌≡◌, ◌≤◌, length};
ghost use Rattle.trie.specs.Runs.{path_cells};
ghost use Rattle.agreement.specs.Whole.{every_below};
ghost use Rattle.sources.specs.Records.{count_of, AllLoad, RecordOf, MeetsRecord, EarlierTo, before};
ghost use Rattle.sources.specs.Records.{ComparesTo, differs_at, Brings};

use super::loading::{count_of, find_record, gather};
use super::{Compared, Records};
use sides::Earlier;
use sides::searches::meet;
use trie::paths::CELLS;

// What a form under a subgoal shares with records before it, with the record after j of them more. That one's path is
// gathered in the cells that are lent.
fn meet_record(
    source: &[u32],
    x: Records,
    j: usize,
    owner: usize,
    form: &[u32],
    path: &mut [u32; CELLS],
    e: Earlier,
) -> Earlier
    requires { RecordOf source.now x j × (length path.old ≡ path_cells) }
    ensures { MeetsRecord source.now x j owner form.now e result × (length path.new ≡ path_cells) }
{
    let other = find_record(source, x, j);
    if other.owner != owner {
        return e;
    }
    let k = gather(source, other.end, path);
    meet(e, &path[k..], form)
}

// What it shares with the first i records.
fn earlier(source: &[u32], x: Records, i: usize, owner: usize, form: &[u32]) -> Earlier
    requires { AllLoad source.now x × (i ≤ count_of x) }
    ensures { EarlierTo (before source.now x i) owner form.now result }
{
    let mut path = [0u32; CELLS];
    let mut e = Earlier {
        shared: 0,
        held: false,
    };
    for j in 0..i {
        e = meet_record(source, x, j, owner, form, &mut path, e);
    }
    e
}

// The record after i of them against these.
fn compare(source: &[u32], x: Records, i: usize) -> Compared
    requires { RecordOf source.now x i }
    ensures { ComparesTo source.now x i result }
{
    let own = find_record(source, x, i);
    let mut path = [0u32; CELLS];
    let k = gather(source, own.end, &mut path);
    let e = earlier(source, x, i, own.owner, &path[k..]);
    Compared {
        tokens: CELLS - k - e.shared,
        held: e.held,
    }
}

// Are no two alike?
pub fn all_differ(source: &[u32], x: Records) -> bool
    requires { AllLoad source.now x }
    ensures { result ≡ every_below (differs_at source.now x) (count_of x) }
{
    for i in 0..count_of(x) {
        if compare(source, x, i).held {
            return false;
        }
    }
    true
}

// How many nodes their forms bring, the roots apart.
pub fn brought(source: &[u32], x: Records) -> u64
    requires { AllLoad source.now x }
    ensures { Brings source.now x (count_of x) result }
{
    let mut sum = 0;
    for i in 0..count_of(x) {
        sum += compare(source, x, i).tokens as u64;
    }
    sum
}
