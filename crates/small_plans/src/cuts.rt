// The cuts that the PARTs of the teams present state.
ghost use Rattle.std.specs.Prelude.{◌<◌};

use crate::exhaust::Found;
use crate::stated;
use crate::stated::Stated;

// How many instruments the first p of four parts have.
fn size(parts: &[u64; 4], p: usize) -> usize {
    parts
        .iter()
        .take(p)
        .fold(0, |all, part| sets::size(*part).wrapping_add(all))
}

// Whether the PARTs of team t cut all instruments into p parts, each worth the share.
fn holds(f: &Found, sheet: &[u8], t: usize, share: u64) -> bool
    requires { t < 4 }
{
    let p = f.present();
    let parts = stated::named(sheet, stated::page_start(f.m, t) + 11, f.m);
    size(&parts, p) == f.m && f.seats[t].least(&parts, p) >= share
}

// How many of the teams present state a cut that does not hold.
pub fn wrong(f: &Found, sheet: &[u8], s: &Stated) -> u64 {
    (0..f.n)
        .filter(|t| f.seats[*t].here && !holds(f, sheet, *t, s.lots[*t].share))
        .count() as u64
}
