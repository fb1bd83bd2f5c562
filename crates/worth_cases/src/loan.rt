// Random loan days for a case: SHELFs of the instruments, and a DAYS of the team. The instruments that are usable come from the crate `days`, and
// by the note's words from the crate `rule`.
use crate::draw::Case;
use days::Days;
use kinds::Valuation;
use rule::loan;
use rule::random::Random;
use std::array;
use team::Team;

// What the days are drawn from: eight bytes for the low byte of each end of the shelf days and of the team's, and for the high byte of every from
// and every to.
#[derive(Clone, Copy)]
pub struct Ends {
    pub shelf_from: [u8; 8],
    pub shelf_to: [u8; 8],
    pub from: [u8; 8],
    pub to: [u8; 8],
    pub high_from: [u8; 8],
    pub high_to: [u8; 8],
}

// A day of 16 bits, its low byte and its high byte each one of eight.
fn day(low: &[u8; 8], high: &[u8; 8], random: &mut Random) -> u16 {
    let low = random.pick(low);
    u16::from_le_bytes([low, random.pick(high)])
}

// The pool, with SHELFs of all instruments but those whose days are in no order.
fn pool_of(e: &Ends, random: &mut Random) -> Team {
    let mut pool = team::blank();
    for g in 0..64 {
        let from = day(&e.shelf_from, &e.high_from, random);
        let to = day(&e.shelf_to, &e.high_to, random);
        loan::put_shelf(&mut pool, g, loan::command(loan::SHELF, from, to));
    }
    pool
}

// The shelf days of each instrument, as the crate `days` reads them.
fn shelf_of(pool: &Team) -> [Days; 64] {
    array::from_fn(|g| {
        let [command, a, b, c, d] = rule::naming(pool, g);
        days::given(command, a, b, c, d)
    })
}

// The instruments of a case that a team can use on its days, as the crate `days` finds them.
fn usable(case: &Case, pool: &Team, team: &Team) -> u64 {
    let [command, a, b, c, d] = team.days;
    days::usable(shelf_of(pool), case.m, days::given(command, a, b, c, d))
}

// A case with loan days.
pub fn lent(c: &Case, e: &Ends, random: &mut Random) -> Case {
    let pool = pool_of(e, random);
    let from = day(&e.from, &e.high_from, random);
    let to = day(&e.to, &e.high_to, random);
    let mut team = c.valuation.team;
    team.days = loan::command(loan::DAYS, from, to);
    Case {
        valuation: Valuation {
            team,
            usable: usable(c, &pool, &team),
            glued: 0,
        },
        m: c.m,
        set: c.set,
        usable: rule::below(c.m, loan::usable(&pool, &team)),
    }
}
