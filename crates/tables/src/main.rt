// The session program: reads calls from standard input, a line each, and prints a line for each. It reads, calls
// `take_line` and `respond`, and writes; crates/session/specs/Program.antt says what these calls come to. The contracts
// fix what is held after each function; that the bytes read are the input's, and that the replies are printed, is for
// the reader to see.
#![tactic(auto)]

mod usage;

ghost use Rattle.std.specs.Prelude.{◌≤◌, length};
ghost use Rattle.session.specs.Program.{starts};
ghost use Rattle.tables.specs.Progress.{KeptWithin, Within, Answered, held, TakesChunk, ReadsSome, ReadsOn};

use session::respond;
use session::start::{
    LINE_BYTES, OUT_CELLS, SPACE_CELLS, TEXT_BYTES, new_line, new_out, new_space, new_text, start,
};
use std::env::{Env, FillError};
use std::io;
use std::io::Read;
use text::Taking;
use text::lines::take_line;
use usage::{say, say_usage};

// How many bytes are read at once, at most.
const READ_AT_ONCE: usize = 65_536;

// Reading or printing failed, and it was said which and why. It ends the program, and no last line is answered.
#[derive(Clone, Copy)]
pub struct Failed;

// Says on standard error which stream failed and why, without the number that an error's text ends with. Nothing is
// left to do where that cannot be said either.
fn say_failed(rt: &HostRuntime, stream: &[u8], error: io::Error) {
    say(rt, stream);
    say(rt, b": ");
    if let Ok(reason) = format!(in rt.alloc(); "{error}") {
        let bytes = reason.as_bytes();
        let end = reason.find(" (os error ").unwrap_or(bytes.len());
        say(rt, &bytes[..end]);
    }
    say(rt, b"\n");
}

// The arrays that the program lends to `take_line` and `respond`. With how many bytes are kept of the line begun they
// are all that it holds: `held`.
#[derive(Drop)]
pub struct Session {
    line: [u8; LINE_BYTES],
    space: [u32; SPACE_CELLS],
    out: [u32; OUT_CELLS],
    text: [u8; TEXT_BYTES],
}

impl Session {
    // Answers the line kept and prints the reply at once, so that a caller who waits for it gets it.
    fn answer(&mut self, rt: &HostRuntime, kept: usize) -> Result<(), Failed>
        requires { kept ≤ length self.old.line }
        ensures { Answered kept self.old self.new }
    {
        let n = respond(
            &self.line[..kept],
            &mut self.space,
            &mut self.out,
            &mut self.text,
        );
        rt.stdout().write_all(&self.text[..n]).map_err(|e| {
            say_failed(rt, b"standard output", e);
            Failed
        })
    }

    // Answers the lines that end in a chunk. The answer is how many bytes are kept of the line that has begun.
    fn take_chunk(&mut self, rt: &HostRuntime, chunk: &[u8], kept: usize) -> Result<usize, Failed>
        requires { kept ≤ length self.old.line }
        ensures within { KeptWithin result (length self.new.line) }
        ensures takes_chunk { TakesChunk chunk.now (held self.old kept) result self.new }
    {
        // A turn passes a line, of whatever length.
        let mut at = 0;
        let mut n = kept;
        while at < chunk.len() {
            match take_line(chunk, at, &mut self.line, n) {
                Taking::More(k) => return Ok(k),
                Taking::Line(next, end) => {
                    self.answer(rt, end)?;
                    at = next;
                    n = 0;
                }
            }
        }
        Ok(n)
    }

    // Reads once, and answers as `take_chunk` does; or with None at the end of the input, where a line without newline
    // counts if it is not empty. A line that an error cut off does not.
    fn read_some(
        &mut self,
        rt: &HostRuntime,
        read: &mut [u8],
        kept: usize,
    ) -> Result<Option<usize>, Failed>
        requires { kept ≤ length self.old.line }
        ensures within { Within result (length self.new.line) }
        ensures reads_some { ReadsSome read.new (held self.old kept) result self.new }
    {
        let n = rt.stdin().read(read).map_err(|e| {
            say_failed(rt, b"standard input", e);
            Failed
        })?;
        if n == 0 {
            if 0 < kept {
                // It is the last, whether or not it could be printed.
                let _ = self.answer(rt, kept);
            }
            return Ok(None);
        }
        let begun = self.take_chunk(rt, &read[..n], kept)?;
        Ok(Some(begun))
    }

    // Reads to the end. A proved loop has to end, and nothing says that the input does, so the loop has more
    // turns than any run uses up.
    fn run(&mut self, rt: &HostRuntime, read: &mut [u8]) -> Result<Option<usize>, Failed>
        ensures { ReadsOn (starts self.old.line self.old.text self.old.space self.old.out) result self.new }
    {
        let mut kept = 0;
        for _ in 0..u64::MAX {
            let Some(n) = self.read_some(rt, read, kept)? else {
                return Ok(None);
            };
            kept = n;
        }
        Ok(Some(kept))
    }
}

// A table in a space of this length is never refused (`Started` in crates/session/specs/Program.antt); what `start`
// answers is looked at all the same.
fn serve(rt: &HostRuntime) {
    let mut session = Session {
        line: new_line(),
        space: new_space(),
        out: new_out(),
        text: new_text(),
    };
    if start(&mut session.space).is_err() {
        say(rt, b"no table could be made\n");
        return;
    }
    let mut read = [0u8; READ_AT_ONCE];
    // What failed was said.
    let _ = session.run(rt, &mut read);
}

// Is there an argument after the program's own name?
fn has_argument(rt: &HostRuntime) -> bool {
    let mut first = [0u8; 1];
    !matches!(rt.arg(1, &mut first), Err(FillError::NotPresent))
}

fn main(rt: HostRuntime) {
    if has_argument(&rt) {
        say_usage(&rt);
        return;
    }
    serve(&rt);
}
