// Glued instruments for a drawn plan: each instrument is glued to one of the teams, or to none.
ghost use Rattle.std.specs.Prelude.{◌≤◌};

use crate::draw::{Member, SmallPlan};
use rule::glue::Site;
use rule::random::Random;
use team::Team;

// What the team of an instrument is drawn from. A team that the plan does not have stands for none too.
const TEAMS: [Option<usize>; 8] = [Some(0), Some(1), Some(2), None, None, None, None, None];

// A drawn plan with glued instruments.
pub fn glued(d: &SmallPlan, random: &mut Random) -> SmallPlan
    requires { 1 ≤ d.now.n }
    ensures { (result.m ≤ 5) × (1 ≤ result.n) × (result.n ≤ 3) }
{
    let mut members = d.members.map(|member| Member { glued: 0, ..member });
    for g in 0..d.m {
        match random.pick(&TEAMS) {
            Some(t) if t < d.n => members[t].glued = sets::with(members[t].glued, g),
            _ => {}
        }
    }
    SmallPlan {
        m: d.m,
        n: d.n,
        pool: d.pool,
        members,
    }
}

// The instruments that are glued to anyone.
pub fn anyone(members: &[Member; 3]) -> u64 {
    members
        .iter()
        .fold(0, |set, member| sets::either(set, member.glued))
}

// A team with what decides which sets are independent for it: the SHELFs of a pool, and what is glued to anyone of three teams.
pub fn site(pool: &Team, members: &[Member; 3], member: &Member) -> Site {
    Site {
        team: member.team,
        usable: rule::loan::usable(pool, &member.team),
        own: member.glued,
        anyone: anyone(members),
    }
}

// Whether the instruments glued to each of the first n teams were independent for it before any was glued.
// Kept (point 5): a pool and teams, as in `site`, and teams in `anyone`: a SmallPlan has bounds, which none of the three asks for.
pub fn all_stand(pool: &Team, members: &[Member; 3], n: usize) -> bool {
    members
        .iter()
        .take(n)
        .all(|member| site(pool, members, member).stands())
}
