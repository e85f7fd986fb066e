// The result word of what a call that lists terms answers.
ghost use Rattle.std.specs.Prelude.{◌≡◌};
ghost use Rattle.words.specs.Listings.{word_listing_by, ListingBounded};
ghost use Rattle.words.specs.Told.{UnwrittenTold};

use super::{CELLS, refusal_with, refusal_word, result_word};
use basis::refusals::{Numbered, Refusal};
use forms::Unwritten;

// There is no term, or no further one: the end of a list is no refusal. The number is the C interface's.
const END: u32 = 16;

// The cells written, or with 12 the cells needed.
pub fn listing_word<R: Numbered>(answer: Result<Option<usize>, Unwritten<R>>) -> u64
    requires told { UnwrittenTold R.told answer }
    requires few { ListingBounded answer }
    ensures { result ≡ word_listing_by R.number answer }
{
    match answer {
        Ok(Some(n)) => result_word(CELLS, n as u32),
        Ok(None) => result_word(END, 0),
        Err(Unwritten::Refused(r)) => refusal_word(r),
        Err(Unwritten::Short(n)) => refusal_with(Refusal::Out, n as u32),
    }
}
