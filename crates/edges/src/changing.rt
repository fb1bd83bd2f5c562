// The verb `byte OFFSET VALUE PLAN`: what Check answers to the sheet that Build writes, with the byte at an offset changed. The value is written
// in hexadecimal.
use crate::{listing, space};
use lines::bytes;
use std::io;

// Answers the verb by Check's answer, or by Build's refusal. Where there is no byte at the offset, none is changed.
pub fn answer(rt: &impl Print, operands: &[u8]) -> io::Result<()> {
    let at = lines::number(operands);
    let after = lines::rest(operands);
    let value = bytes::of(lines::word(after)).next().unwrap_or(0);
    let mut space = space::of_plan();
    let plan = bytes::decoded(lines::rest(after), &mut space);
    let mut sheet = [0u8; 2642];
    match builder::build(plan, &mut sheet) {
        Ok(long) => {
            if let Some(byte) = sheet.get_mut(at) {
                *byte = value;
            }
            listing::judge(rt, plan, lines::front(&sheet, long))
        }
        Err(refusal) => print!(rt; "{refusal}"),
    }
}
