// Loan days for a drawn plan: a SHELF for some of its instruments and a DAYS for some of its teams.
ghost use Rattle.std.specs.Prelude.{◌≤◌};

use crate::draw::SmallPlan;
use rule::loan;
use rule::random::Random;
use team::Team;

// What the days are drawn from, one of eight each: the command of an instrument and of a team, 255 for none, and each end of their days.
// Kept (point 1): bytes, since a command is drawn by its byte, whichever it is.
#[derive(Clone, Copy)]
pub struct Ends {
    pub shelf: [u8; 8],
    pub shelf_from: [u16; 8],
    pub shelf_to: [u16; 8],
    pub days: [u8; 8],
    pub from: [u16; 8],
    pub to: [u16; 8],
}

// A drawn command with its days, and none where 255 is drawn.
fn named(commands: &[u8; 8], from: &[u16; 8], to: &[u16; 8], random: &mut Random) -> [u8; 5] {
    let byte = random.pick(commands);
    let from = random.pick(from);
    let to = random.pick(to);
    if byte == 255 {
        [255; 5]
    } else {
        loan::command(byte, from, to)
    }
}

// The pool, with SHELFs of the first five instruments.
fn pool_of(e: &Ends, random: &mut Random) -> Team {
    let mut pool = team::blank();
    for g in 0..5 {
        let shelf = named(&e.shelf, &e.shelf_from, &e.shelf_to, random);
        loan::put_shelf(&mut pool, g, shelf);
    }
    pool
}

// A drawn plan with loan days.
pub fn lent(d: &SmallPlan, e: &Ends, random: &mut Random) -> SmallPlan
    requires { 1 ≤ d.now.n }
    ensures { (result.m ≤ 5) × (1 ≤ result.n) × (result.n ≤ 3) }
{
    let pool = pool_of(e, random);
    let mut members = d.members;
    for member in members.iter_mut() {
        member.team.days = named(&e.days, &e.from, &e.to, random);
    }
    SmallPlan {
        m: d.m,
        n: d.n,
        pool,
        members,
    }
}
