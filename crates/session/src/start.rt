// What the session program starts from: its table, and the arrays that it lends to `respond` and to `take_line`.
ghost use Rattle.std.specs.Prelude.{◌≡◌, length};
ghost use Rattle.session.specs.Numbers.{space_cells, out_cells, text_bytes, line_bytes, start_answer, start_space};

use asking::LONGEST_LINE;
use basis::refusals::Refusal;
use replies::{CELL_BYTES, REPLY_BYTES};
use space::fresh::fresh;

// The table's edition.
const EDITION: u32 = 1;

// The capacity N.
const NODES: u32 = 1000;

// The capacity F.
const SUBGOALS: u32 = 50;

// The capacity A.
const ANSWERS: u32 = 100;

// All that a table of these capacities takes: 8 + 5 N + 6 F + 3 A.
pub const SPACE_CELLS: usize = 5608;

// The longest instance that is printed.
pub const OUT_CELLS: usize = 8192;

// Room for any reply.
pub const TEXT_BYTES: usize = CELL_BYTES * OUT_CELLS + REPLY_BYTES;

// A byte more than the longest line, so that a longer one shows.
pub const LINE_BYTES: usize = LONGEST_LINE + 1;

// Makes the table.
pub fn start(space: &mut [u32]) -> Result<(), Refusal>
    ensures { (result ≡ start_answer space.old) × (space.new ≡ start_space space.old) }
{
    fresh(space, NODES, SUBGOALS, ANSWERS, EDITION)
}

// One of each, since the contract of each holds a constant to the specs' number: with `[0; N]` alone nothing would.
pub fn new_space() -> [u32; SPACE_CELLS]
    ensures { space_cells ≡ length result }
{
    [0; SPACE_CELLS]
}

pub fn new_out() -> [u32; OUT_CELLS]
    ensures { out_cells ≡ length result }
{
    [0; OUT_CELLS]
}

pub fn new_text() -> [u8; TEXT_BYTES]
    ensures { text_bytes ≡ length result }
{
    [0; TEXT_BYTES]
}

pub fn new_line() -> [u8; LINE_BYTES]
    ensures { line_bytes ≡ length result }
{
    [0; LINE_BYTES]
}
