// What the program says of itself on standard error when it is given arguments: it takes none.

// What cannot be said is left unsaid: there is no other place to say it.
pub fn say(rt: &HostRuntime, text: &[u8]) {
    let _ = rt.stderr().write_all(text);
}

// The numbers are those of crates/session/src/start.rt.
const USAGE: &[u8] = b"\
usage: tables < CALLS (no arguments)
reads calls, a line each, and prints a line for each
table: 1000 nodes, 50 subgoals, 100 answers, edition 1
out: 8192 cells
line: at most 4096 bytes, one of
  call CELLS
  answer SUBGOAL CELLS
  finish SUBGOAL
  next SUBGOAL AFTER
  load ANSWER
  instance ANSWER
  counts
  why CELLS
fields: each after one space
  a number: 1 to 7 decimal digits
  a cell: 8 lower-case hexadecimal digits
";

// A line at a time, so that one that cannot be said takes no other with it.
pub fn say_usage(rt: &HostRuntime) {
    for line in USAGE.split_inclusive(|b| *b == b'\n') {
        say(rt, line);
    }
}
