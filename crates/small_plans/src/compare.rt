// What a sheet states beside what the search finds.
use crate::counts::Counts;
use crate::exhaust::{Found, Lot, Seat};
use crate::stated::Stated;
use crate::{away, cuts, exhaust, stated};

// How many bundles are worth less than their size.
fn dependent(seats: &[Seat; 4], lots: &[Lot; 4]) -> u64 {
    seats
        .iter()
        .zip(lots)
        .filter(|(seat, lot)| seat.worth(lot.bundle) != sets::size(lot.bundle) as u64)
        .count() as u64
}

// How many shares are not what they should be.
pub fn different(lots: &[Lot; 4], best: &[Lot; 4]) -> u64 {
    lots.iter()
        .zip(best)
        .filter(|(lot, best)| lot.share != best.share)
        .count() as u64
}

// How many teams hold less than their share.
fn short(lots: &[Lot; 4]) -> u64 {
    lots.iter().filter(|lot| lot.is_short()).count() as u64
}

// What a sheet of a plan adds to the counts.
pub fn of_sheet(f: &Found, sheet: &[u8]) -> Counts {
    let s = stated::read(f, sheet);
    let bundles = s.lots.map(|lot| lot.bundle);
    let total = exhaust::total(&f.seats, &bundles);
    Counts {
        totals: s.total,
        shares: s
            .lots
            .iter()
            .fold(0, |sum, lot| lot.share.wrapping_add(sum)),
        wrong_totals: u64::from(s.total != f.total || s.total != total),
        dependent: dependent(&f.seats, &s.lots),
        wrong_shares: different(&s.lots, &f.lots),
        wrong_cuts: cuts::wrong(f, sheet, &s),
        away_bytes: away::not_zero(f, sheet),
        short: short(&s.lots),
        ..Counts::default()
    }
}

// Whether the search confirms all that a sheet states.
pub fn confirms(f: &Found, sheet: &[u8]) -> bool {
    let c = of_sheet(f, sheet);
    let division = c.wrong_totals == 0 && c.dependent == 0 && c.short == 0;
    division && c.wrong_shares == 0 && c.wrong_cuts == 0 && c.away_bytes == 0
}

// v(all) divided by p, for a team that is present.
fn plain_share(seat: &Seat, p: usize) -> u64 {
    if seat.here && p > 0 {
        seat.worth(31) / (p as u64)
    } else {
        0
    }
}

// How many shares are others than those of a rule.
fn other<F: Fn(&Seat) -> u64>(seats: &[Seat; 4], lots: &[Lot; 4], rule: F) -> u64
    requires { F.IsAlwaysCallable rule }
{
    seats
        .iter()
        .zip(lots)
        .filter(|(seat, lot)| lot.share != rule(*seat))
        .count() as u64
}

// What a plan of the first n teams adds to the counts, whatever its sheet.
// Kept (point 5): no Found, since no bound of it is asked for.
pub fn of_plan(n: usize, seats: &[Seat; 4], lots: &[Lot; 4]) -> Counts {
    let p = exhaust::present(seats, n);
    let away = seats.iter().take(n).filter(|seat| !seat.here).count();
    Counts {
        plans: 1,
        plans_away: u64::from(away > 0),
        plans_all_away: u64::from(p == 0),
        teams: n as u64,
        away: away as u64,
        short_best: u64::from(short(lots) > 0),
        apart: other(seats, lots, |seat| plain_share(seat, p)),
        raised: other(seats, lots, |seat| seat.share(n)),
        ..Counts::default()
    }
}
