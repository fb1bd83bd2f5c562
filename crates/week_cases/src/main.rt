// The weekly listing of plans and of sheets, and the line of a refusal. An empty line of standard input and one that starts with `#` come back
// as they are; any other line is a case, answered by its text: `week PLAN`, `list SHEET / PLAN`, `give TEAMS / PLAN` or `line NUMBER PLACE`,
// each also after `room SIZE`.
#![tactic(auto)]

use lines::answers;
use std::io;

mod room;
mod sheets;
mod writing;

// Answers a case by the text that it writes into 512 bytes, or by the refusal that it answers.
fn text(rt: &impl Print, case: &[u8]) -> io::Result<()> {
    let mut space = [0u8; 512];
    match writing::write(case, &mut space) {
        Ok(long) => rt.write_all(lines::front(&space, long)),
        Err(refusal) => println!(rt; "{refusal}"),
    }
}

// Answers a line that is a case.
fn answer(rt: &impl Print, line: &[u8]) -> io::Result<()> {
    match lines::word(line) {
        b"room" => room::answer(rt, lines::rest(line)),
        _ => text(rt, line),
    }
}

// Of standard input the first 65,536 bytes are read.
fn main(rt: HostRuntime) -> io::Result<()> {
    let mut space = [0u8; 65536];
    answers::to_input(&rt, &mut space, |line| answer(&rt, line))
}
