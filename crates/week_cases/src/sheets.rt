// The verbs that list a sheet by a plan.
use command::refusal::Refusal;
use lines::{bytes, sheets};

// `list SHEET / PLAN`: the listing of a sheet that is written in hexadecimal.
pub fn list(operands: &[u8], buffer: &mut [u8]) -> Result<usize, Refusal> {
    let mut sheet = [0u8; 4096];
    let mut plan = [0u8; 4096];
    let (before, after) = lines::split(operands, b'/');
    let sheet = bytes::decoded(before, &mut sheet);
    let plan = bytes::decoded(after, &mut plan);
    listing::list(plan, sheet, buffer)
}

// `give TEAMS / PLAN`: the listing of the sheet that Build writes, with another division. TEAMS has a byte for each instrument: the team that
// it is given to, or FF for the pool; those after the last byte are in the pool.
pub fn give(operands: &[u8], buffer: &mut [u8]) -> Result<usize, Refusal> {
    let mut teams = [255u8; 64];
    let mut plan = [0u8; 4096];
    let mut sheet = [0u8; 2642];
    let (before, after) = lines::split(operands, b'/');
    bytes::decoded(before, &mut teams);
    let plan = bytes::decoded(after, &mut plan);
    let long = builder::build(plan, &mut sheet)?;
    sheets::give(&mut sheet, &teams);
    listing::list(plan, lines::front(&sheet, long), buffer)
}
