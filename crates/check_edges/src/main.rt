// Answers each line of standard input by one line. An empty line and one that starts with `#` come back as they are; any other
// line is a verb and its operands. A plan and a sheet are written in hexadecimal, with a `/` between them.
#![tactic(auto)]

use lines::{answers, print};
use std::io;

mod sheets;

// Answers a line that is a verb and its operands: each verb has an arm here.
fn answer(rt: &impl Print, line: &[u8]) -> io::Result<()> {
    let operands = lines::rest(line);
    match lines::word(line) {
        b"check" => sheets::check(rt, operands)?,
        b"page" => sheets::page(rt, operands)?,
        b"changes" => sheets::changes(rt, operands)?,
        verb => print::unknown(rt, verb)?,
    }
    println!(rt)
}

// Of standard input the first 65,536 bytes are read.
fn main(rt: HostRuntime) -> io::Result<()> {
    let mut space = [0u8; 65536];
    answers::to_input(&rt, &mut space, |line| answer(&rt, line))
}
