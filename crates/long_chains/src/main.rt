// Plans that need long chains, chains through several teams, or the shortest of several chains (`divide HEX`), and long chains carried out on a
// holding (`hold CASE`). Each line of standard input is answered in turn. An empty line and one that starts with `#` come back as they are; any
// other line is a verb and its operands.
#![tactic(auto)]

use lines::{answers, print};
use std::io;

mod dividing;

// Answers a line that is a verb and its operands.
fn answer(rt: &impl Print, line: &[u8]) -> io::Result<()> {
    let operands = lines::rest(line);
    match lines::word(line) {
        b"divide" => dividing::answer(rt, operands)?,
        b"hold" => stepping::answer(rt, operands)?,
        verb => print::unknown(rt, verb)?,
    }
    println!(rt)
}

// Of standard input the first 65,536 bytes are read.
fn main(rt: HostRuntime) -> io::Result<()> {
    let mut space = [0u8; 65536];
    answers::to_input(&rt, &mut space, |line| answer(&rt, line))
}
