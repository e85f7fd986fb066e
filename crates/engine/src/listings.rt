// Every call of a small size as C functions: the first of the list, and the one after a given one.
ghost use Rattle.words.specs.Listings.{ReturnsFirstTerm, ReturnsTermAfter};

use words::listings::listing_word;

// Writes the first call of `size` cells over the symbols to the start of out; the cells after it stay.
#[unsafe(no_mangle)]
pub extern "C" fn tables_first_term(
    symbols: &[u32],
    size: usize,
    out: &mut [u32],
    edition: u32,
) -> u64
    ensures { ReturnsFirstTerm symbols.now size out.old edition result out.new }
{
    listing_word(listing::first_term(symbols, size, out, edition))
}

// Writes the call that stands after a given one in that list, in the same way.
#[unsafe(no_mangle)]
pub extern "C" fn tables_term_after(
    symbols: &[u32],
    size: usize,
    term: &[u32],
    out: &mut [u32],
    edition: u32,
) -> u64
    ensures { ReturnsTermAfter symbols.now size term.now out.old edition result out.new }
{
    listing_word(listing::term_after(symbols, size, term, out, edition))
}
