// Cases of a holding, each a line of text: the holding that it starts with, and then steps, each after a semicolon. Every step is answered by what
// it hands back and by the sizes and the shortfall that this carries, beside a count made here.
#![tactic(auto)]

use std::io;

mod counts;
mod moves;
mod showing;
mod starting;
mod steps;

// Answers a case: what each step hands back.
pub fn answer(rt: &impl Print, line: &[u8]) -> io::Result<()> {
    let (start, steps) = lines::split(line, b';');
    steps::answer(rt, starting::read(start), steps)
}
