// The C interface: the two converters over little-endian bytes here; the calls over cells, the search for detours and
// the lists of terms in modules.
#![tactic(auto)]

pub mod calls;
pub mod listings;
pub mod searches;

ghost use Rattle.marshalling.specs.Export.{CompactsBytesIn, ExpandsBytesIn};

// Compacts one term in the edition of this number.
#[unsafe(no_mangle)]
pub extern "C" fn tables_compact(input: &[u8], out: &mut [u8], edition: u32) -> u32
    ensures { CompactsBytesIn edition input.now out.old result out.new }
{
    marshalling::compact_bytes(input, out, edition)
}

// Expands the form of one term in the edition of this number.
#[unsafe(no_mangle)]
pub extern "C" fn tables_expand(input: &[u8], out: &mut [u8], edition: u32) -> u32
    ensures { ExpandsBytesIn edition input.now out.old result out.new }
{
    marshalling::expand_bytes(input, out, edition)
}
