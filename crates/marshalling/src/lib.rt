// The converters over little-endian bytes, four to a cell, as the rule engine hands terms over and gets them back: one
// number is returned, the cells written or a refusal.
#![tactic(auto)]

ghost use Rattle.std.specs.Prelude.{true, ◌≡◌, ◌++◌, ◌*◌, ◌^◌, ◌/◌, ◌≤◌, ◌<◌, length, take, drop};
ghost use Rattle.marshalling.specs.Bytes.{cells_of, bytes_of};
ghost use Rattle.forms.specs.Converting.{converter_edition};
ghost use Rattle.marshalling.specs.Export.{RefusesBytes, CompactRoom, ExpandRoom, Delivers, returned};
ghost use Rattle.marshalling.specs.Export.{CompactsBytes, CompactsBytesIn, ExpandsBytes, ExpandsBytesIn};

use basis::limits::{MOST_CELLS, MOST_TOKENS};
use basis::refusals::Refusal;
use convert::buffers::{
    FEW_CELLS, FEW_TOKENS, FORM_OF_FEW, FORM_OF_MOST, FORM_OF_SOME, MANY_TOKENS, SOME_CELLS,
    SOME_TOKENS, TERMS_OF_FEW, TERMS_OF_MANY, TERMS_OF_MOST, TERMS_OF_SOME, cells_rung,
    tokens_rung,
};
use forms::Unwritten;

// A refusal is returned as 2^31 plus its number.
const REFUSED: u32 = 2147483648;

// An answer as the one number that the C interface returns; the need of 12 is not given.
fn returned(answer: Result<u32, Unwritten>) -> u32
    ensures { result ≡ returned answer }
{
    match answer {
        Ok(n) => n,
        Err(Unwritten::Refused(refusal)) => REFUSED + u32::from(refusal),
        Err(Unwritten::Short(_)) => REFUSED + u32::from(Refusal::Out),
    }
}

// Reads the n cells of bytes into the start of cells.
fn decode(bytes: &[u8], n: usize, cells: &mut [u32])
    requires { (n ≡ length bytes.now / 4) × (n ≤ length cells.old) }
    ensures { cells.new ≡ cells_of bytes.now ++ drop n cells.old }
{
    for i in 0..n {
        cells[i] = u32::from_le_bytes([
            bytes[4 * i],
            bytes[4 * i + 1],
            bytes[4 * i + 2],
            bytes[4 * i + 3],
        ]);
    }
}

// Writes the first n cells to the start of out.
fn encode(cells: &[u32], n: usize, out: &mut [u8])
    requires { (n ≤ length cells.now) × (4 * n ≤ length out.old) }
    ensures { out.new ≡ bytes_of (take n cells.now) ++ drop (4 * n) out.old }
{
    for (i, &c) in cells[..n].iter().enumerate() {
        out[4 * i..4 * i + 4].copy_from_slice(&c.to_le_bytes());
    }
}

// Writes the first n cells to out if it has room for them, and answers n; bytes past its last whole
// cell are no room. A count below 2^31 is told from a refusal.
fn deliver(cells: &[u32], n: usize, out: &mut [u8]) -> Result<u32, Unwritten>
    requires { (n ≤ length cells.now) × (n < 2 ^ 31) }
    ensures { Delivers cells.now n out.old (returned result) out.new }
{
    if out.len() / 4 < n {
        return Err(Unwritten::Short(n));
    }
    encode(cells, n, out);
    Ok(n as u32)
}

// Compacts the n cells of input, with buffers that are long enough for them: their form has at most three tokens for
// two cells.
fn compact_with(
    input: &[u8],
    n: usize,
    cells: &mut [u32],
    vars: &mut [u32],
    form: &mut [u32],
    out: &mut [u8],
    edition: u32,
) -> Result<u32, Unwritten>
    requires { CompactRoom n input.now cells.old vars.old form.old }
    ensures { CompactsBytes edition input.now out.old (returned result) out.new }
{
    decode(input, n, cells);
    let read = convert::read_terms(&cells[..n], 1, vars, form, edition);
    let Ok(size) = read else {
        return Err(Unwritten::Refused(read.unwrap_err()));
    };
    deliver(form, size.tokens, out)
}

// Compacts one term. Short terms get short buffers, since making a buffer clears it; over 256 cells nothing is read.
// Not by `with_form`: it lends two buffers of two lengths, and here are three of three, since the input is decoded too.
fn compact_cells(input: &[u8], n: usize, out: &mut [u8], edition: u32) -> Result<u32, Unwritten>
    requires { 4 * n ≡ length input.now }
    ensures { CompactsBytes edition input.now out.old (returned result) out.new }
{
    let rung = cells_rung(n);
    if rung <= FEW_CELLS {
        let mut cells = [0u32; FEW_CELLS];
        let mut vars = [0u32; FEW_CELLS];
        let mut form = [0u32; FORM_OF_FEW];
        return compact_with(input, n, &mut cells, &mut vars, &mut form, out, edition);
    }
    if rung <= SOME_CELLS {
        let mut cells = [0u32; SOME_CELLS];
        let mut vars = [0u32; SOME_CELLS];
        let mut form = [0u32; FORM_OF_SOME];
        return compact_with(input, n, &mut cells, &mut vars, &mut form, out, edition);
    }
    if n <= MOST_CELLS {
        let mut cells = [0u32; MOST_CELLS];
        let mut vars = [0u32; MOST_CELLS];
        let mut form = [0u32; FORM_OF_MOST];
        return compact_with(input, n, &mut cells, &mut vars, &mut form, out, edition);
    }
    Err(Unwritten::Refused(Refusal::Length))
}

// Expands the n cells of input, with buffers that are long enough for them: each token writes at most two cells.
// Apart from `compact_with`: the reader needs `vars`, and hands on its refusal; the rest is `decode` and `deliver`.
fn expand_with(
    input: &[u8],
    n: usize,
    form: &mut [u32],
    cells: &mut [u32],
    out: &mut [u8],
    edition: u32,
) -> Result<u32, Unwritten>
    requires { ExpandRoom n input.now form.old cells.old }
    ensures { ExpandsBytes edition input.now out.old (returned result) out.new }
{
    decode(input, n, form);
    let Some(k) = convert::load_terms(&form[..n], 1, cells, edition) else {
        return Err(Unwritten::Refused(Refusal::Form));
    };
    deliver(cells, k, out)
}

// Expands the form of one term. Short forms get short buffers, since making a buffer clears it; no legal form is over
// 383 tokens, so nothing longer is read. Not by `with_terms`: the form is decoded into a buffer of its rung too.
fn expand_cells(input: &[u8], n: usize, out: &mut [u8], edition: u32) -> Result<u32, Unwritten>
    requires { 4 * n ≡ length input.now }
    ensures { ExpandsBytes edition input.now out.old (returned result) out.new }
{
    let rung = tokens_rung(n);
    if rung <= FEW_TOKENS {
        let mut form = [0u32; FEW_TOKENS];
        let mut cells = [0u32; TERMS_OF_FEW];
        return expand_with(input, n, &mut form, &mut cells, out, edition);
    }
    if rung <= SOME_TOKENS {
        let mut form = [0u32; SOME_TOKENS];
        let mut cells = [0u32; TERMS_OF_SOME];
        return expand_with(input, n, &mut form, &mut cells, out, edition);
    }
    if rung <= MANY_TOKENS {
        let mut form = [0u32; MANY_TOKENS];
        let mut cells = [0u32; TERMS_OF_MANY];
        return expand_with(input, n, &mut form, &mut cells, out, edition);
    }
    if n <= MOST_TOKENS {
        let mut form = [0u32; MOST_TOKENS];
        let mut cells = [0u32; TERMS_OF_MOST];
        return expand_with(input, n, &mut form, &mut cells, out, edition);
    }
    Err(Unwritten::Refused(Refusal::Form))
}

// Returns what a converter answers that is given the number of cells of input and out: in an edition that there is, and
// where the input is whole cells.
fn export<F: FnOnce(usize, &mut [u8]) -> Result<u32, Unwritten>>(
    input: &[u8],
    out: &mut [u8],
    edition: u32,
    convert: F,
) -> u32
    requires { 4 * (length input.now / 4) ≡ length input.now → (lent : _) → lent.now ≡ out.old
        → F.pre convert (length input.now / 4) lent }
    ensures refused { RefusesBytes edition input.now out.old result out.new }
    ensures converted { converter_edition edition ≡ true → 4 * (length input.now / 4) ≡ length input.now
        → (lent : _) × (left : _) × (answer : _) × (lent.now ≡ out.old) × (left.now ≡ out.new)
        × (result ≡ returned answer) × F.post convert (length input.now / 4) lent answer left }
{
    if !forms::is_converter_edition(edition) {
        return returned(Err(Unwritten::Refused(Refusal::Header)));
    }
    let bytes = input.len();
    if bytes % 4 != 0 {
        return returned(Err(Unwritten::Refused(Refusal::Term)));
    }
    returned(convert(bytes / 4, out))
}

// Compacts one term in the edition of this number.
pub fn compact_bytes(input: &[u8], out: &mut [u8], edition: u32) -> u32
    ensures { CompactsBytesIn edition input.now out.old result out.new }
{
    export(
        input,
        out,
        edition,
        |n, out: &mut [u8]| compact_cells(input, n, out, edition),
    )
}

// Expands the form of one term in the edition of this number.
pub fn expand_bytes(input: &[u8], out: &mut [u8], edition: u32) -> u32
    ensures { ExpandsBytesIn edition input.now out.old result out.new }
{
    export(
        input,
        out,
        edition,
        |n, out: &mut [u8]| expand_cells(input, n, out, edition),
    )
}
