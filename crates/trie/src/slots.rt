// The slots of an index: how many it may have, where a child is looked for first, and which slot follows another.
ghost use Rattle.std.specs.Prelude.{◌≡◌, ◌^◌, ◌<◌, ◌≤◌, true, length};
ghost use Rattle.trie.specs.Index.{power_of_two, used_slots, slot_of, slot_after, insert_from};

use basis::wide;

// A number of slots that can be looked in.
pub fn is_power_of_two(size: usize) -> bool
    ensures { result ≡ power_of_two size }
{
    size.is_power_of_two()
}

// The slots of an index that are looked in: all of them or, of a number that is no power of two, none.
#[tactic(auto, unfolding(crate::specs::Index::used_slots))]
pub fn used_slots(size: usize) -> usize
    ensures { (result ≡ used_slots size) × (result ≤ size) }
{
    if is_power_of_two(size) { size } else { 0 }
}

// Where the child with this parent and token is looked for first.
pub fn slot_of(size: usize, parent: usize, token: u32) -> usize
    requires { (power_of_two size ≡ true) × (parent < 2 ^ 32) }
    ensures { (result ≡ slot_of size parent token) × (result < size) }
{
    wide((parent as u32).wrapping_add(token)) & (size - 1)
}

// The next slot, around.
#[tactic(auto, unfolding(crate::specs::Index::slot_after))]
pub fn slot_after(size: usize, slot: usize) -> usize
    requires { slot < size }
    ensures { (result ≡ slot_after size slot) × (result < size) }
{
    if slot + 1 == size { 0 } else { slot + 1 }
}

// Node n in the first free slot from `first` on, around; no slot is looked at twice.
pub fn insert_from(slots: &mut [u32], first: usize, n: u32)
    requires { first < length slots.old }
    ensures { slots.new ≡ insert_from (length slots.old) slots.old first n }
{
    let size = slots.len();
    let mut slot = first;
    for _ in 0..size {
        if slots[slot] == 0 {
            slots[slot] = n;
            return;
        }
        slot = slot_after(size, slot);
    }
}
