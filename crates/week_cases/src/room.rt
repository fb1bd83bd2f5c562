// The verb `room SIZE CASE`: what a case answers where it is lent the first SIZE of 1,024 bytes, and from which offset on all of the 1,024
// bytes are as they were. The bytes before that offset stand on the lines after it.
use crate::writing;
use std::io;

// What stands in each byte before the case.
const FILLER: u8 = 0xaa;

// Answers the verb by the length of the text, or a refusal, the offset and the bytes before it.
pub fn answer(rt: &impl Print, operands: &[u8]) -> io::Result<()> {
    let size = lines::number(operands);
    let mut space = [FILLER; 1024];
    match writing::write(lines::rest(operands), lines::front_mut(&mut space, size)) {
        Ok(long) => print!(rt; "WROTE {long}")?,
        Err(refusal) => print!(rt; "{refusal}")?,
    }
    let from = lines::unchanged_from(&space, FILLER);
    println!(rt; "; UNCHANGED FROM {from}")?;
    rt.write_all(lines::front(&space, from))
}
