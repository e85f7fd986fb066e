// Runs terms at the limits, and one beyond them, through both converters and prints what they answer.
#![tactic(auto)]

ghost use Rattle.std.specs.Prelude.{◌+◌, ◌*◌, ◌≤◌, length};

use std::io;
use trials::{both, count_compact, count_expand, print_answer};

// A list of n distinct variables, in 2 n + 1 cells.
fn variable_list(cells: &mut [u32], n: usize)
    requires { (n ≤ 100) × (2 * n + 1 ≤ length cells.old) }
{
    for i in 0..n {
        cells[2 * i] = forms::PAIR;
        cells[2 * i + 1] = 0x10000100 + i as u32;
    }
    cells[2 * n] = forms::NIL;
}

// The variables numbered from 0, one after another.
fn numbered(form: &mut [u32])
    requires { length form.old ≤ 100 }
{
    for (i, cell) in form.iter_mut().enumerate() {
        *cell = forms::VARIABLE + i as u32;
    }
}

// Functors of one argument, one in another, around an integer: 256 cells and 257.
fn cells_256(rt: &impl Print) -> io::Result<()> {
    let mut cells = [0x40000011u32; 257];
    cells[255] = 0x30000001;
    count_compact(rt, "256 cells", &cells[..256], 1)?;
    cells[255] = 0x40000011;
    cells[256] = 0x30000001;
    count_compact(rt, "257 cells", &cells, 1)?;
    cells[0] = 0;
    count_compact(rt, "257 cells, the first illegal", &cells, 1)
}

// The longest form: a functor of one argument before 127 pairs, one in the head of another.
fn tokens_383(rt: &impl Print) -> io::Result<()> {
    let mut cells = [0x30000001u32; 256];
    cells[0] = 0x40000011;
    cells[1..128].fill(forms::PAIR);
    count_compact(rt, "127 pairs below a functor", &cells, 1)?;
    let mut form = [0u32; 383];
    // Its count is printed above.
    let _ = convert::compact(&cells, 1, &mut form, 1);
    count_expand(rt, "their form", &form, 1, 1)?;
    let mut long = [0x40000011u32; 384];
    long[383] = 0x30000001;
    count_expand(rt, "384 tokens", &long, 1, 1)
}

// 32 variables and 33.
fn variables_32(rt: &impl Print) -> io::Result<()> {
    let mut cells = [0u32; 67];
    variable_list(&mut cells, 32);
    count_compact(rt, "a list of 32 variables", &cells[..65], 1)?;
    variable_list(&mut cells, 33);
    count_compact(rt, "a list of 33 variables", &cells, 1)?;
    count_compact(
        rt,
        "a list of 33 variables without its end",
        &cells[..66],
        1,
    )?;
    let mut form = [0u32; 33];
    numbered(&mut form);
    count_expand(rt, "32 variables", &form[..32], 32, 1)?;
    count_expand(rt, "33 variables", &form, 33, 1)
}

// Forms whose pair form has 255 cells and 257.
fn expanded_256(rt: &impl Print) -> io::Result<()> {
    let mut form = [0x30000001u32; 130];
    form[0] = forms::BLIST;
    form[127] = forms::ELIST;
    count_expand(rt, "a list of 127 integers", &form[..129], 1, 1)?;
    form[127] = 0x30000001;
    form[128] = forms::ELIST;
    count_expand(rt, "a list of 128 integers", &form, 1, 1)
}

// Edition 2: a functor of 255 arguments, and one of the largest name; edition 1 reads 15 arguments.
fn edition_2(rt: &impl Print) -> io::Result<()> {
    let mut cells = [0x30000001u32; 256];
    cells[0] = 0x400001ff;
    count_compact(rt, "f/255, edition 2", &cells, 2)?;
    count_expand(rt, "f/255, edition 2", &cells, 1, 2)?;
    count_compact(rt, "f/255, edition 1", &cells, 1)?;
    both(
        rt,
        "functor 1,048,575 with two arguments, edition 2",
        &[0x4fffff02, 0x10000007, 0x10000009],
        1,
        2,
    )
}

// The same functor with an argument less, with one more, and with as many as edition 1 reads.
fn edition_2_cut(rt: &impl Print) -> io::Result<()> {
    let mut less = [0x30000001u32; 255];
    less[0] = 0x400001ff;
    count_compact(rt, "f/255 without its last argument", &less, 2)?;
    let mut more = [0x30000001u32; 257];
    more[0] = 0x400001ff;
    count_compact(rt, "f/255 with an argument more", &more, 2)?;
    let mut first = [0x30000001u32; 16];
    first[0] = 0x400001ff;
    count_compact(rt, "its first 16 cells, edition 1", &first, 1)
}

// The converters take editions 1 and 2 alone, whatever the cells are.
fn other_editions(rt: &impl Print) -> io::Result<()> {
    count_compact(rt, "no cells, edition 0", &[], 0)?;
    count_compact(rt, "an integer, edition 3", &[0x30000001], 3)?;
    count_expand(rt, "an integer, edition 3", &[0x30000001], 1, 3)?;
    count_expand(
        rt,
        "an integer, edition 4294967295",
        &[0x30000001],
        1,
        4294967295,
    )
}

// An out that is one cell too short.
fn short_out(rt: &impl Print) -> io::Result<()> {
    print!(rt; "[1|2] into three cells")?;
    let mut form = [0u32; 3];
    let compacted = convert::compact(&[0x50000000, 0x30000001, 0x30000002], 1, &mut form, 1);
    print!(rt; "\n  compact ")?;
    print_answer(rt, compacted, &form)?;
    print!(rt; "its form into two cells")?;
    let mut cells = [0u32; 2];
    let expanded = convert::expand(
        &[0x60000000, 0x30000001, 0x80000000, 0x30000002],
        1,
        &mut cells,
        1,
    );
    print!(rt; "\n  expand  ")?;
    print_answer(rt, expanded, &cells)
}

fn main(rt: HostRuntime) -> io::Result<()> {
    cells_256(&rt)?;
    tokens_383(&rt)?;
    variables_32(&rt)?;
    expanded_256(&rt)?;
    edition_2(&rt)?;
    edition_2_cut(&rt)?;
    other_editions(&rt)?;
    short_out(&rt)
}
