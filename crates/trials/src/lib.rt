// The converters tried on given cells, and what they answer printed on standard output.
#![tactic(auto)]

use basis::refusals::Numbered;
use forms::Unwritten;
use std::convert::AsSlice;
use std::io;

// A word, then a number, each written by itself: a stream that takes only a part takes the word.
fn print_number(rt: &impl Print, word: &str, n: usize) -> io::Result<()> {
    print!(rt; "{word}")?;
    print!(rt; "{n}")
}

// Prints an answer by its count alone.
fn print_count<R: Numbered>(
    rt: &impl Print,
    answer: Result<usize, Unwritten<R>>,
) -> io::Result<()> {
    match answer {
        Ok(n) => print_number(rt, "cells ", n)?,
        Err(Unwritten::Refused(refusal)) => {
            print_number(rt, "refused ", refusal.number() as usize)?
        }
        Err(Unwritten::Short(n)) => print_number(rt, "refused 12, needs ", n)?,
    }
    println!(rt; "")
}

// Prints an answer, with the cells that were written, in hexadecimal. Its refusal may be a number alone.
pub fn print_answer<R: Numbered>(
    rt: &impl Print,
    answer: Result<usize, Unwritten<R>>,
    out: &[u32],
) -> io::Result<()> {
    let Ok(n) = answer else {
        return print_count(rt, answer);
    };
    print!(rt; "cells")?;
    for cell in out.iter().take(n) {
        print!(rt; " {cell:08x}")?;
    }
    println!(rt; "")
}

// Compacts the m terms in s, and expands the form that was written. Here and below the name is text or bytes, which are
// printed as they are.
pub fn both(
    rt: &impl Print,
    name: impl AsSlice<u8> + Drop,
    s: &[u32],
    m: usize,
    edition: u32,
) -> io::Result<()> {
    let mut form = [0u32; 383];
    let compacted = convert::compact(s, m, &mut form, edition);
    rt.write_all(name.as_slice())?;
    print!(rt; "\n  compact ")?;
    print_answer(rt, compacted, &form)?;
    let Ok(n) = compacted else {
        return Ok(());
    };
    if n <= 383 {
        let mut cells = [0u32; 256];
        let expanded = convert::expand(&form[..n], m, &mut cells, edition);
        print!(rt; "  expand  ")?;
        print_answer(rt, expanded, &cells)?;
    }
    Ok(())
}

// Expands s.
pub fn back(
    rt: &impl Print,
    name: impl AsSlice<u8> + Drop,
    s: &[u32],
    m: usize,
    edition: u32,
) -> io::Result<()> {
    let mut cells = [0u32; 256];
    let expanded = convert::expand(s, m, &mut cells, edition);
    rt.write_all(name.as_slice())?;
    print!(rt; "\n  expand  ")?;
    print_answer(rt, expanded, &cells)
}

// Compacts s as one term into an out of 383 cells, and prints the count.
pub fn count_compact(
    rt: &impl Print,
    name: impl AsSlice<u8> + Drop,
    s: &[u32],
    edition: u32,
) -> io::Result<()> {
    let mut form = [0u32; 383];
    rt.write_all(name.as_slice())?;
    print!(rt; "\n  compact ")?;
    print_count(rt, convert::compact(s, 1, &mut form, edition))
}

// Expands s as the form of m terms into an out of 256 cells, and prints the count.
pub fn count_expand(
    rt: &impl Print,
    name: impl AsSlice<u8> + Drop,
    s: &[u32],
    m: usize,
    edition: u32,
) -> io::Result<()> {
    let mut cells = [0u32; 256];
    rt.write_all(name.as_slice())?;
    print!(rt; "\n  expand  ")?;
    print_count(rt, convert::expand(s, m, &mut cells, edition))
}
