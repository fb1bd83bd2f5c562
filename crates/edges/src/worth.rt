// The verb `worth TEAM SET PLAN`: what a set is worth to a team. The set is written as its bytes, the lowest first, with no spaces.
use crate::space;
use lines::bytes;
use std::io;

// Answers the verb by `WORTH` and a number, or by a refusal.
pub fn answer(rt: &impl Print, operands: &[u8]) -> io::Result<()> {
    let team = lines::number(operands);
    let after = lines::rest(operands);
    let mut set = [0u8; 8];
    bytes::decoded(lines::word(after), &mut set);
    let mut space = space::of_plan();
    let plan = bytes::decoded(lines::rest(after), &mut space);
    match plan::worth(plan, team, u64::from_le_bytes(set)) {
        Ok(worth) => print!(rt; "WORTH {worth}"),
        Err(refusal) => print!(rt; "{refusal}"),
    }
}
