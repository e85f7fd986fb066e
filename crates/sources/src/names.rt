// The names in the forms of a source: whether edition 2 has room for them.
ghost use Rattle.std.specs.Prelude.{◌≡◌, length};
ghost use Rattle.trie.specs.Runs.{path_cells};
ghost use Rattle.agreement.specs.Whole.{every_below};
ghost use Rattle.carrying.specs.Recoding.{widening, takes_word};
ghost use Rattle.sources.specs.Records.{count_of, AllLoad, RecordOf, named_at};

use super::Records;
use super::loading::{count_of, find_record, gather};
use super::tokens::is_named;
use trie::paths::CELLS;

// Every token of a form.
fn form_named(form: &[u32]) -> bool
    ensures { result ≡ takes_word widening form.now }
{
    for &x in form {
        if !is_named(x) {
            return false;
        }
    }
    true
}

// That of the record after i of them, gathered in the cells that are lent.
fn record_named(source: &[u32], x: Records, i: usize, path: &mut [u32; CELLS]) -> bool
    requires { RecordOf source.now x i × (length path.old ≡ path_cells) }
    ensures { (result ≡ named_at source.now x i) × (length path.new ≡ path_cells) }
{
    let own = find_record(source, x, i);
    let k = gather(source, own.end, path);
    form_named(&path[k..])
}

// Those of all.
pub fn all_named(source: &[u32], x: Records) -> bool
    requires { AllLoad source.now x }
    ensures { result ≡ every_below (named_at source.now x) (count_of x) }
{
    let mut path = [0u32; CELLS];
    for i in 0..count_of(x) {
        if !record_named(source, x, i, &mut path) {
            return false;
        }
    }
    true
}
