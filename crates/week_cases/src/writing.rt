// What a case writes into a lent buffer, and its answer: each verb has an arm here.
use crate::sheets;
use command::refusal;
use command::refusal::Refusal;
use lines::bytes;

// `week PLAN`: what the program `divide` prints of a plan. Of the plan the first 8,192 bytes are read.
fn week(operands: &[u8], buffer: &mut [u8]) -> Result<usize, Refusal> {
    let mut space = [0u8; 8192];
    listing::week(bytes::decoded(operands, &mut space), buffer)
}

// `line NUMBER PLACE`: the line of a refusal.
fn line(operands: &[u8], buffer: &mut [u8]) -> Result<usize, Refusal> {
    let number = lines::number_or_max(operands);
    let place = lines::number_or_max(lines::rest(operands));
    listing::refusal(number, place, buffer)
}

// Carries out a case. A verb that is none of the four is answered by 0 at 0, which no operation answers.
pub fn write(case: &[u8], buffer: &mut [u8]) -> Result<usize, Refusal> {
    let operands = lines::rest(case);
    match lines::word(case) {
        b"week" => week(operands, buffer),
        b"list" => sheets::list(operands, buffer),
        b"give" => sheets::give(operands, buffer),
        b"line" => line(operands, buffer),
        _ => refusal::refuse(0, 0),
    }
}
