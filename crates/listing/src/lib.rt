// The weekly listing: of a sheet, and of a plan that is divided; and the line of a refusal.
#![tactic(auto)]

ghost use Rattle.std.specs.Prelude.{◌≡◌, ◌≤◌, length};
ghost use Rattle.sheet.specs.Layout.{length_of};
ghost use Rattle.listing.specs.Listing.{listing, refusal_line};
ghost use Rattle.listing.specs.Lent.{text_answer, text_in};
ghost use Rattle.listing.specs.List.{list_answer, list_bytes};
ghost use Rattle.listing.specs.Week.{Week};

use command::refusal::{Refusal, refuse};

mod line;
mod text;

// Puts the listing of a sheet of m instruments and n teams at the start of a buffer that is long enough for it.
fn fitted(sheet: &[u8], m: usize, n: usize, buffer: &mut [u8]) -> Result<usize, Refusal>
    requires { (m ≤ 64) × (n ≤ 12) × (length_of m n ≤ length sheet.now) }
    ensures answer { result ≡ text_answer (listing m n sheet.now) buffer.old }
    ensures bytes { buffer.new ≡ text_in (listing m n sheet.now) buffer.old }
{
    let mut none = [0u8; 1];
    let long = line::listing(&mut none, sheet, m, n);
    if buffer.len() < long {
        return refuse(10, long);
    }
    line::listing(buffer, sheet, m, n);
    Ok(long)
}

// The listing of a sheet that Check accepts by a plan, at the start of a lent buffer.
pub fn list(plan: &[u8], sheet: &[u8], buffer: &mut [u8]) -> Result<usize, Refusal>
    ensures answer { result ≡ list_answer plan.now sheet.now buffer.old }
    ensures bytes { buffer.new ≡ list_bytes plan.now sheet.now buffer.old }
{
    checker::check(plan, sheet)?;
    fitted(sheet, sets::wide(sheet[1]), sets::wide(sheet[2]), buffer)
}

// The line of a refusal, at the start of a lent buffer.
pub fn refusal(number: usize, place: usize, buffer: &mut [u8]) -> Result<usize, Refusal>
    ensures answer { result ≡ text_answer (refusal_line number place) buffer.old }
    ensures bytes { buffer.new ≡ text_in (refusal_line number place) buffer.old }
{
    let mut none = [0u8; 1];
    let width = line::refusal(&mut none, number, place);
    if buffer.len() < width {
        return refuse(10, width);
    }
    line::refusal(buffer, number, place);
    Ok(width)
}

// Divides a plan and writes its listing, or the line of its refusal, at the start of a lent buffer.
pub fn week(plan: &[u8], buffer: &mut [u8]) -> Result<usize, Refusal>
    ensures { Week plan.now buffer.old buffer.new result }
{
    let mut sheet = [0u8; 2642];
    match builder::build(plan, &mut sheet) {
        Ok(long) => list(plan, &sheet[..long], buffer),
        Err(Refusal { number, place }) => refusal(number, place, buffer),
    }
}
