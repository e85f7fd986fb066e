// Lines cut from chunks of bytes, as a program reads them.
ghost use Rattle.std.specs.Prelude.{◌≡◌, drop, set};
ghost use Rattle.text.specs.Cutting.{kept_more, took, taking, InRange};

use super::Taking;

// Puts a byte behind those kept, if the buffer has room for it.
fn keep(b: u8, line: &mut [u8], kept: usize) -> usize
    ensures { (result ≡ kept_more line.old kept) × (line.new ≡ set line.old kept b) }
{
    if kept < line.len() {
        line[kept] = b;
        kept + 1
    } else {
        kept
    }
}

// Takes the bytes of a chunk from a place on, up to the next newline, behind those of their line that are kept
// already. What the buffer has no room for is passed over.
pub fn take_line(chunk: &[u8], at: usize, line: &mut [u8], kept: usize) -> Taking
    ensures line_value { took result line.new ≡ taking (drop at chunk.now) at line.old kept }
    ensures in_range { InRange chunk.now at line.old kept result }
{
    let mut n = kept;
    for i in at..chunk.len() {
        if chunk[i] == b'\n' {
            return Taking::Line(i + 1, n);
        }
        n = keep(chunk[i], line, n);
    }
    Taking::More(n)
}
