// Sheets with one byte changed: what Check accepts of them, the search must confirm.
use crate::counts::Counts;
use crate::exhaust::Found;
use crate::{away, compare};
use rule::random::Random;

// What a byte is changed to.
const VALUES: [u8; 8] = [0, 1, 2, 3, 4, 7, 31, 255];

// Whether Check accepts a sheet.
pub fn accepted(plan: &[u8], sheet: &[u8]) -> bool {
    checker::check(plan, sheet).is_ok()
}

// What a sheet with the byte at an offset changed adds to the counts. On the page of a team that is away each byte has one value only.
fn of_changed(f: &Found, plan: &[u8], sheet: &[u8], at: usize) -> Counts {
    let away = away::covers(f, at);
    let accepted = accepted(plan, sheet);
    Counts {
        changed: 1,
        changed_away: u64::from(away),
        changed_accepted: u64::from(accepted),
        changed_wrong: u64::from(accepted && (away || !compare::confirms(f, sheet))),
        ..Counts::default()
    }
}

// A sheet with a drawn byte changed; the byte is put back. Nothing is counted where that is no change.
fn change(f: &Found, plan: &[u8], sheet: &mut [u8], random: &mut Random) -> Counts {
    let at = (random.next() / 256 % 128) as usize;
    let value = random.pick(&VALUES);
    if at >= sheet.len() || sheet[at] == value {
        return Counts::default();
    }
    let old = sheet[at];
    sheet[at] = value;
    let counts = of_changed(f, plan, sheet, at);
    sheet[at] = old;
    counts
}

// Up to 32 such changes. The first number drawn is left out.
pub fn changes(f: &Found, plan: &[u8], sheet: &mut [u8], mut random: Random) -> Counts {
    let _left_out = random.next();
    let mut counts = Counts::default();
    for _ in 0..32 {
        counts += change(f, plan, sheet, &mut random);
    }
    counts
}
