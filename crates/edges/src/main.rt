// Answers each line of standard input by one line. An empty line and one that starts with `#` come back as they are; any other
// line is a verb and its operands.
#![tactic(auto)]

use lines::{answers, print};
use std::io;

mod building;
mod changing;
mod giving;
mod glue;
mod listing;
mod loan;
mod naming;
mod reading;
mod room;
mod space;
mod worth;

// Answers a line that is a verb and its operands: each verb has an arm here and a module.
fn answer(rt: &impl Print, line: &[u8]) -> io::Result<()> {
    let operands = lines::rest(line);
    match lines::word(line) {
        b"read" => reading::answer(rt, operands)?,
        b"worth" => worth::answer(rt, operands)?,
        b"build" => building::answer(rt, operands)?,
        b"give" => giving::answer(rt, operands)?,
        b"byte" => changing::answer(rt, operands)?,
        b"room" => room::answer(rt, operands)?,
        verb => print::unknown(rt, verb)?,
    }
    println!(rt)
}

// Of standard input the first 262,144 bytes are read.
fn main(rt: HostRuntime) -> io::Result<()> {
    let mut space = space::of_input();
    answers::to_input(&rt, &mut space, |line| answer(&rt, line))
}
