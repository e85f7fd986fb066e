// The slots of a ledger: where a child is looked for first.
ghost use Rattle.std.specs.Prelude.{◌≡◌, ◌<◌, ◌≤◌, ◌^◌};
ghost use Rattle.trie.specs.Ledger.{mixed_slot};

use basis::wide;

// Where the child with this parent and token is looked for first. The two products and their sum have 64 bits.
pub fn mixed_slot(size: usize, parent: usize, token: u32) -> usize
    requires { (0 < size) × (size ≤ 2 ^ 32) × (parent < 2 ^ 32) }
    ensures { (result ≡ mixed_slot size parent token) × (result < size) }
{
    let mixed = (parent * 1780508695 + wide(token) * 97174869) % 4294967296;
    mixed * size / 4294967296
}
