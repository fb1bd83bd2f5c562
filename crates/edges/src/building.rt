// The verb `build PLAN`: the length and the listing of the sheet that Build writes, or the refusal.
use crate::{listing, space};
use lines::bytes;
use std::io;

// Answers the verb.
pub fn answer(rt: &impl Print, hex: &[u8]) -> io::Result<()> {
    let mut space = space::of_plan();
    let plan = bytes::decoded(hex, &mut space);
    let mut sheet = [0u8; 2642];
    match builder::build(plan, &mut sheet) {
        Ok(long) => {
            print!(rt; "L {long}; ")?;
            listing::show(rt, plan, lines::front(&sheet, long))
        }
        Err(refusal) => print!(rt; "{refusal}"),
    }
}
