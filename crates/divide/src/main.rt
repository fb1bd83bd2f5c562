// divide: reads a plan from standard input and prints the weekly listing, or the refusal.
#![tactic(auto)]

use lines::input;
use std::io;

// Prints the listing of a plan, or the line of its refusal. By the theorems of listing's `Most` neither has more than 512 bytes, so that no
// refusal of the buffer comes.
fn answer(rt: &impl Print, plan: &[u8]) -> io::Result<()> {
    let mut space = [0u8; 512];
    match listing::week(plan, &mut space) {
        Ok(long) => rt.write_all(&space[..long]),
        Err(_) => Ok(()),
    }
}

// Of standard input the first 8,192 bytes are read: by Read's theorem `first_bytes` they decide the answer.
fn main(rt: HostRuntime) -> io::Result<()> {
    let mut space = [0u8; 8192];
    let n = input::read_full(&rt, &mut space)?;
    answer(&rt, &space[..n])
}
