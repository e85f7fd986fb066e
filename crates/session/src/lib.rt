// One line of a session in, one line out; and what the session program starts from.
#![tactic(auto)]

pub mod start;

ghost use Rattle.std.specs.Prelude.{◌≡◌, ◌≤◌, leb, length};
ghost use Rattle.replies.specs.Texts.{text_room};
ghost use Rattle.asking.specs.Lines.{longest_line};
ghost use Rattle.session.specs.Keywords.{keyword_of, word_said, line_said, WordPuts, LinePuts};
ghost use Rattle.session.specs.Session.{responding};

use asking::{
    LONGEST_LINE, ask_answer, ask_call, ask_counts, ask_finish, ask_instance, ask_load, ask_next,
    ask_why,
};
use replies::{CELL_BYTES, REPLY_BYTES, print_bad};
use text::fields::{first_end, is_word};

// What a line's first word asks for.
#[derive(Clone, Copy)]
pub enum Keyword {
    Call,
    Answer,
    Finish,
    Next,
    Load,
    Instance,
    Counts,
    Why,
    Other,
}

// The word as a keyword.
fn keyword_of(word: &[u8]) -> Keyword
    ensures { result ≡ keyword_of word.now }
{
    // A match on byte strings tests byte by byte: over thirty goals, which did not close.
    if is_word(word, b"call") {
        Keyword::Call
    } else if is_word(word, b"answer") {
        Keyword::Answer
    } else if is_word(word, b"finish") {
        Keyword::Finish
    } else if is_word(word, b"next") {
        Keyword::Next
    } else if is_word(word, b"load") {
        Keyword::Load
    } else if is_word(word, b"instance") {
        Keyword::Instance
    } else if is_word(word, b"counts") {
        Keyword::Counts
    } else if is_word(word, b"why") {
        Keyword::Why
    } else {
        Keyword::Other
    }
}

// The reply to a line that is not too long, by its first word; without the newline.
fn reply(line: &[u8], space: &mut [u32], out: &mut [u32], text: &mut [u8]) -> usize
    requires { (length line.now ≤ longest_line) × (text_room (length out.old) ≤ length text.old) }
    ensures word_puts { WordPuts line.now space.old out.old text.old result text.new }
    ensures space_value { space.new ≡ (word_said line.now space.old out.old).state }
    ensures out_value { out.new ≡ (word_said line.now space.old out.old).out }
{
    let at = first_end(line);
    match keyword_of(&line[..at]) {
        Keyword::Call => ask_call(line, at, space, text),
        Keyword::Answer => ask_answer(line, at, space, text),
        Keyword::Finish => ask_finish(line, at, space, text),
        Keyword::Next => ask_next(line, at, space, text),
        Keyword::Load => ask_load(line, at, space, out, text),
        Keyword::Instance => ask_instance(line, at, space, out, text),
        Keyword::Counts => ask_counts(line, at, space, text),
        Keyword::Why => ask_why(line, at, space, text),
        Keyword::Other => print_bad(text),
    }
}

// The same of a line of any length: one that is too long is not read.
fn reply_or_bad(line: &[u8], space: &mut [u32], out: &mut [u32], text: &mut [u8]) -> usize
    requires { text_room (length out.old) ≤ length text.old }
    ensures line_puts { LinePuts line.now space.old out.old text.old result text.new }
    ensures space_value { space.new ≡ (line_said line.now space.old out.old).state }
    ensures out_value { out.new ≡ (line_said line.now space.old out.old).out }
{
    if line.len() <= LONGEST_LINE {
        reply(line, space, out, text)
    } else {
        print_bad(text)
    }
}

// Has the text room for any reply? Divided, since the bytes for so many cells could overflow.
fn has_room(out: &[u32], text: &[u8]) -> bool
    ensures { result ≡ leb (text_room (length out.now)) (length text.now) }
{
    REPLY_BYTES <= text.len() && out.len() <= (text.len() - REPLY_BYTES) / CELL_BYTES
}

// Answers a line: what is to be printed stands at the start of text, with its newline, and its length
// is returned. A text without room for any reply gets none.
pub fn respond(line: &[u8], space: &mut [u32], out: &mut [u32], text: &mut [u8]) -> usize
    ensures value { result ≡ (responding line.now text.old space.old out.old).printed }
    ensures text_value { text.new ≡ (responding line.now text.old space.old out.old).text }
    ensures space_value { space.new ≡ (responding line.now text.old space.old out.old).space }
    ensures out_value { out.new ≡ (responding line.now text.old space.old out.old).out }
    ensures upper_bound { result ≤ length text.new }
{
    if has_room(out, text) {
        let end = reply_or_bad(line, space, out, text);
        text[end] = b'\n';
        end + 1
    } else {
        0
    }
}
