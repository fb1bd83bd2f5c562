// Plans with glued instruments: those that are refused with 18, and what the others gain beside the same plans with no GLUE.
ghost use Rattle.std.specs.Prelude.{◌≡◌};

use crate::counts::Counts;
use crate::draw::{Member, SmallPlan};
use crate::{compare, exhaust, glue, trial};
use rule::random::Random;

// The same plan with no GLUE.
fn unglued(d: &SmallPlan) -> SmallPlan
    ensures { (result.m ≡ d.now.m) × (result.n ≡ d.now.n) }
{
    SmallPlan {
        m: d.m,
        n: d.n,
        pool: d.pool,
        members: d.members.map(|member| Member { glued: 0, ..member }),
    }
}

// What the glued instruments of a plan add to the counts, beside the same plan with no GLUE.
fn beside(d: &SmallPlan) -> Counts {
    let free = unglued(d);
    let f = exhaust::search(d);
    let g = exhaust::search(&free);
    Counts {
        glued: sets::size(glue::anyone(&d.members)) as u64,
        gained_shares: compare::different(&f.lots, &g.lots),
        gained_totals: u64::from(f.total != g.total),
        ..Counts::default()
    }
}

// What a plan that is to be refused with 18 adds to the counts.
fn fallen(d: &SmallPlan) -> Counts {
    Counts {
        fallen: 1,
        fallen_wrong: u64::from(!trial::refused(d)),
        ..Counts::default()
    }
}

// The counts of one drawn plan with glued instruments.
pub fn of_plan(d: &SmallPlan, random: Random) -> Counts {
    if glue::all_stand(&d.pool, &d.members, d.n) {
        trial::run(d, random) + beside(d)
    } else {
        fallen(d)
    }
}
