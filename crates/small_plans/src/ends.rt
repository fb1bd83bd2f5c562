// Loan days counted: how the days of the teams lie to the shelf days of the instruments, and what they change.
ghost use Rattle.std.specs.Prelude.{◌≡◌};

use crate::counts::Counts;
use crate::draw::SmallPlan;
use crate::{compare, exhaust};
use rule::loan::Loan;
use std::ops::Add;
use team::Team;

// Whether days lie within shelf days and have an end with them.
fn level(days: Loan, shelf: Loan) -> bool {
    days.within(shelf) && (days.from == shelf.from || days.to == shelf.to)
}

// Whether days do not lie within shelf days, but would if these had one day more at each end.
fn near(days: Loan, shelf: Loan) -> bool {
    let wider = Loan {
        from: shelf.from.saturating_sub(1),
        to: shelf.to.wrapping_add(1),
    };
    !days.within(shelf) && days.within(wider)
}

// What a team and an instrument add to the counts.
fn of_pair(days: Loan, shelf: Loan) -> Counts {
    Counts {
        barred: u64::from(!days.within(shelf)),
        level: u64::from(level(days, shelf)),
        near: u64::from(near(days, shelf)),
        ..Counts::default()
    }
}

// What a team and each instrument of a plan add to the counts.
fn of_team(d: &SmallPlan, team: &Team) -> Counts {
    let days = Loan::of_team(team);
    (0..d.m)
        .map(|g| of_pair(days, Loan::of_instrument(&d.pool, g)))
        .fold(Counts::default(), Counts::add)
}

// What each team and each instrument of a plan add to the counts.
fn of_teams(d: &SmallPlan) -> Counts {
    d.teams()
        .iter()
        .map(|member| of_team(d, &member.team))
        .fold(Counts::default(), Counts::add)
}

// The same plan with no SHELF.
fn unshelved(d: &SmallPlan) -> SmallPlan
    ensures { (result.m ≡ d.now.m) × (result.n ≡ d.now.n) }
{
    SmallPlan {
        m: d.m,
        n: d.n,
        pool: team::blank(),
        members: d.members,
    }
}

// What the loan days of a plan add to the counts, beside the same plan with no SHELF.
pub fn of_plan(d: &SmallPlan) -> Counts {
    let every = unshelved(d);
    let f = exhaust::search(d);
    let g = exhaust::search(&every);
    Counts {
        lower_shares: compare::different(&f.lots, &g.lots),
        lower_totals: u64::from(f.total != g.total),
        ..of_teams(d)
    }
}
