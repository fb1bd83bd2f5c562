// The lines of the weekly listing, and of a refusal.
// Kept (point 5): m ≤ 64 and n ≤ 12 stand in each contract, as in `sheet`.
ghost use Rattle.std.specs.Prelude.{◌+◌, ◌*◌, ◌≤◌, ◌<◌, length};
ghost use Rattle.matroid.specs.Cuts.{each};
ghost use Rattle.sheet.specs.Layout.{length_of, give_start, share_start};
ghost use Rattle.sheet.specs.Fields.{holder_at};
ghost use Rattle.listing.specs.Listing.{instrument as Listing·instrument, instruments as Listing·instruments, holdings as Listing·holdings};
ghost use Rattle.listing.specs.Listing.{team_line, listing as Listing·listing, refusal_line};
ghost use Rattle.listing.specs.Put.{Put};

use super::text;

// An instrument, where a sheet gives it to a team, or to the pool at 255.
fn instrument(buffer: &mut [u8], at: usize, sheet: &[u8], g: usize, team: u8) -> usize
    requires { (at ≤ 60000) × (g < 64) × (give_start g + 3 ≤ length sheet.now) }
    ensures put { Put buffer.old at (Listing·instrument (holder_at sheet.now) team g) buffer.new result }
    ensures short { result ≤ at + 28 }
{
    if sheet[sheet::give_start(g) + 2] != team {
        return at;
    }
    text::field(buffer, at, b" ", g)
}

// The instruments that a sheet gives to a team, or to the pool at 255, rising.
fn instruments(buffer: &mut [u8], at: usize, sheet: &[u8], m: usize, team: u8) -> usize
    requires { (at ≤ 50000) × (m ≤ 64) × (give_start m ≤ length sheet.now) }
    ensures put { Put buffer.old at (Listing·instruments m (holder_at sheet.now) team) buffer.new result }
    ensures short { result ≤ at + 28 * m }
{
    let mut next = at;
    for g in 0..m {
        next = instrument(buffer, next, sheet, g, team);
    }
    next
}

// The end of a line: a word, the instruments of a team or of the pool, and a line feed.
fn holdings(buffer: &mut [u8], at: usize, word: &[u8], sheet: &[u8], m: usize, team: u8) -> usize
    requires { (at ≤ 40000) × (length word.now ≤ 8) × (m ≤ 64) × (give_start m ≤ length sheet.now) }
    ensures put { Put buffer.old at (Listing·holdings word.now m (holder_at sheet.now) team) buffer.new result }
    ensures short { result ≤ at + 1801 }
{
    let next = text::word(buffer, at, word);
    let next = instruments(buffer, next, sheet, m, team);
    text::word(buffer, next, b"\n")
}

// The line of a team.
fn team(buffer: &mut [u8], at: usize, sheet: &[u8], m: usize, t: usize) -> usize
    requires { (at ≤ 30000) × (m ≤ 64) × (t < 12) × (share_start m t + 3 ≤ length sheet.now) }
    ensures put { Put buffer.old at (team_line m sheet.now t) buffer.new result }
    ensures short { result ≤ at + 1857 }
{
    let share = sets::wide(sheet[sheet::share_start(m, t) + 2]);
    let next = text::field(buffer, at, b"TEAM ", t);
    let next = text::field(buffer, next, b" SHARE ", share);
    holdings(buffer, next, b" HOLDS", sheet, m, t as u8)
}

// The lines of n teams.
fn teams(buffer: &mut [u8], at: usize, sheet: &[u8], m: usize, n: usize) -> usize
    requires { (at ≤ 100) × (m ≤ 64) × (n ≤ 12) × (length_of m n ≤ length sheet.now) }
    ensures put { Put buffer.old at (each n (team_line m sheet.now)) buffer.new result }
    ensures short { result ≤ at + 1857 * n }
{
    let mut next = at;
    for t in 0..n {
        next = team(buffer, next, sheet, m, t);
    }
    next
}

// The listing of a sheet of m instruments and n teams.
pub fn listing(buffer: &mut [u8], sheet: &[u8], m: usize, n: usize) -> usize
    requires { (m ≤ 64) × (n ≤ 12) × (length_of m n ≤ length sheet.now) }
    ensures { Put buffer.old 0 (Listing·listing m n sheet.now) buffer.new result }
{
    let next = text::field(buffer, 0, b"TOTAL ", sets::wide(sheet[3]));
    let next = text::word(buffer, next, b"\n");
    let next = teams(buffer, next, sheet, m, n);
    holdings(buffer, next, b"POOL", sheet, m, 255)
}

// The line of a refusal.
pub fn refusal(buffer: &mut [u8], number: usize, place: usize) -> usize
    ensures { Put buffer.old 0 (refusal_line number place) buffer.new result }
{
    let next = text::field(buffer, 0, b"REFUSED ", number);
    let next = text::field(buffer, next, b" ", place);
    text::word(buffer, next, b"\n")
}
