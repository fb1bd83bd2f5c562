// The pages of the teams that are away: their share, set and PARTs are 0.
ghost use Rattle.std.specs.Prelude.{◌≤◌, ◌<◌};

use crate::exhaust::Found;
use crate::stated::page_start;
use command::decode::byte_at;

// How many bytes that a page of m PARTs states are not 0: of the nine of a share and a set, and of the parts that the PARTs name.
fn page(sheet: &[u8], at: usize, m: usize) -> u64
    requires { (at ≤ 2700) × (m ≤ 5) }
{
    let wrong = |k| byte_at(sheet, at + k) != 0;
    let share_and_set = (2..11).filter(|k| wrong(*k)).count();
    let parts = (0..m).filter(|g| wrong(13 + 3 * *g)).count();
    (share_and_set as u64).wrapping_add(parts as u64)
}

// How many bytes that the teams away state are not 0.
pub fn not_zero(f: &Found, sheet: &[u8]) -> u64 {
    (0..f.n).filter(|t| !f.seats[*t].here).fold(
        0,
        |count, t| count.wrapping_add(page(sheet, page_start(f.m, t), f.m)),
    )
}

// Whether an offset lies on the page of a team that is away.
pub fn covers(f: &Found, at: usize) -> bool {
    (0..f.n).any(|t| {
        let page = page_start(f.m, t)..page_start(f.m, t + 1);
        !f.seats[t].here && page.contains(&at)
    })
}
