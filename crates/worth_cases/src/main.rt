// Worth and gains beside the documents' own words, on random valuations and on chosen teams. Each line of standard input is answered by one
// line. An empty line and one that starts with `#` come back as they are; any other line is a verb and its operands.
#![tactic(auto)]

use lines::{answers, print};
use std::io;

mod beside;
mod chosen;
mod defined;
mod draw;
mod gained;
mod loan;
mod many;

// Answers a line that is a verb and its operands.
fn answer(rt: &impl Print, line: &[u8]) -> io::Result<()> {
    let operands = lines::rest(line);
    match lines::word(line) {
        b"many" => many::answer(rt, operands, many::PLAIN)?,
        b"glued" => many::answer(rt, operands, many::GLUED)?,
        b"lent" => many::answer(rt, operands, many::LENT)?,
        b"team" => chosen::answer(rt, operands)?,
        b"gained" => gained::answer(rt, operands)?,
        verb => print::unknown(rt, verb)?,
    }
    println!(rt)
}

// Of standard input the first 65,536 bytes are read.
fn main(rt: HostRuntime) -> io::Result<()> {
    answers::to_input(&rt, &mut [0; 65536], |line| answer(&rt, line))
}
