// The verb `room SIZE PLAN`: what Build answers where it is lent the first SIZE of 4,096 bytes, and from which offset on all of the 4,096 bytes
// are as they were.
use crate::space;
use lines::bytes;
use std::io;

// What stands in each byte before Build.
const FILLER: u8 = 0xaa;

// Answers the verb by the length L of the sheet, or a refusal, and the offset.
pub fn answer(rt: &impl Print, operands: &[u8]) -> io::Result<()> {
    let size = lines::number(operands);
    let mut plan = space::of_plan();
    let plan = bytes::decoded(lines::rest(operands), &mut plan);
    let mut space = [FILLER; 4096];
    match builder::build(plan, lines::front_mut(&mut space, size)) {
        Ok(long) => print!(rt; "L {long}")?,
        Err(refusal) => print!(rt; "{refusal}")?,
    }
    print!(rt;
        "; UNCHANGED FROM {}",
        lines::unchanged_from(&space, FILLER)
    )
}
