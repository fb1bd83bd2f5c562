// The verb `give TEAMS / PLAN`: the sheet that Build writes, with another division. TEAMS has a byte for each instrument: the team that it is
// given to, or FF for the pool.
use crate::{listing, space};
use lines::{bytes, sheets};
use std::io;

// Answers the verb by the listing, or by Build's refusal.
pub fn answer(rt: &impl Print, operands: &[u8]) -> io::Result<()> {
    let mut teams = [255u8; 64];
    bytes::decoded(operands, &mut teams);
    let mut space = space::of_plan();
    let plan = bytes::decoded(lines::after(operands, b'/'), &mut space);
    let mut sheet = [0u8; 2642];
    match builder::build(plan, &mut sheet) {
        Ok(long) => {
            sheets::give(&mut sheet, &teams);
            listing::show(rt, plan, lines::front(&sheet, long))
        }
        Err(refusal) => print!(rt; "{refusal}"),
    }
}
