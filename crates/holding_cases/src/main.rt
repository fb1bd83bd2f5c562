// Give, return and chain of a holding, carried out and refused. Each line of standard input is answered by one line. An empty line and one
// that starts with `#` come back as they are; any other line is a case: a holding, and then steps, each after a semicolon.
#![tactic(auto)]

use lines::answers;
use std::io;

// Answers a case by one line.
fn answer(rt: &impl Print, line: &[u8]) -> io::Result<()> {
    stepping::answer(rt, line)?;
    println!(rt)
}

// Of standard input the first 65,536 bytes are read.
fn main(rt: HostRuntime) -> io::Result<()> {
    let mut space = [0u8; 65536];
    answers::to_input(&rt, &mut space, |line| answer(&rt, line))
}
