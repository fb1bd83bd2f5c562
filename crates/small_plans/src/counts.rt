// Counts over plans.
use std::io;
use std::ops::{Add, AddAssign};

// What is counted. In the first group are the plans, in the second their loan days, in the third their glued instruments, in the fourth the sheets
// that Build writes, in the fifth sheets with one byte changed.
#[derive(Clone, Copy, Default)]
pub struct Counts {
    pub plans: u64,
    // plans with a team away, and with no team present
    pub plans_away: u64,
    pub plans_all_away: u64,
    pub teams: u64,
    // teams that are away
    pub away: u64,
    // plans whose first division with the greatest total leaves a team with less than its share
    pub short_best: u64,
    // teams present whose share is not v(all) divided by p
    pub apart: u64,
    // teams whose share among p is not that among n
    pub raised: u64,

    // pairs of a team and an instrument that it cannot use on its days
    pub barred: u64,
    // pairs where the team's days lie within the shelf days and have an end with them
    pub level: u64,
    // pairs where they do not, but would with one shelf day more at each end
    pub near: u64,
    // shares and totals that are not those without SHELFs
    pub lower_shares: u64,
    pub lower_totals: u64,

    // plans whose glued instruments do not stand, and those of them that are not refused with 18 at the END
    pub fallen: u64,
    pub fallen_wrong: u64,
    // glued instruments of the other plans
    pub glued: u64,
    // shares and totals that are not those without GLUEs
    pub gained_shares: u64,
    pub gained_totals: u64,

    // sheets that Check accepts
    pub accepted: u64,
    // the totals and the shares that the sheets state, added up
    pub totals: u64,
    pub shares: u64,
    // totals that are not the greatest, or not those of the bundles
    pub wrong_totals: u64,
    // bundles that are not independent
    pub dependent: u64,
    // shares that are not those of the best cut
    pub wrong_shares: u64,
    // teams present whose PARTs are no cut into p parts worth the share
    pub wrong_cuts: u64,
    // bytes that a team away states and that are not 0
    pub away_bytes: u64,
    // teams that hold less than their share
    pub short: u64,
    // bytes beyond the sheet that are not as they were
    pub beyond: u64,

    pub changed: u64,
    // those changed on the page of a team that is away
    pub changed_away: u64,
    // those that Check accepts
    pub changed_accepted: u64,
    // those that Check accepts and the search does not confirm
    pub changed_wrong: u64,
}

// The counts of two lots together.
impl Add for Counts {
    type Output = Counts;

    fn add(self, other: Counts) -> Counts {
        Counts {
            plans: self.plans.wrapping_add(other.plans),
            plans_away: self.plans_away.wrapping_add(other.plans_away),
            plans_all_away: self.plans_all_away.wrapping_add(other.plans_all_away),
            teams: self.teams.wrapping_add(other.teams),
            away: self.away.wrapping_add(other.away),
            short_best: self.short_best.wrapping_add(other.short_best),
            apart: self.apart.wrapping_add(other.apart),
            raised: self.raised.wrapping_add(other.raised),
            barred: self.barred.wrapping_add(other.barred),
            level: self.level.wrapping_add(other.level),
            near: self.near.wrapping_add(other.near),
            lower_shares: self.lower_shares.wrapping_add(other.lower_shares),
            lower_totals: self.lower_totals.wrapping_add(other.lower_totals),
            fallen: self.fallen.wrapping_add(other.fallen),
            fallen_wrong: self.fallen_wrong.wrapping_add(other.fallen_wrong),
            glued: self.glued.wrapping_add(other.glued),
            gained_shares: self.gained_shares.wrapping_add(other.gained_shares),
            gained_totals: self.gained_totals.wrapping_add(other.gained_totals),
            accepted: self.accepted.wrapping_add(other.accepted),
            totals: self.totals.wrapping_add(other.totals),
            shares: self.shares.wrapping_add(other.shares),
            wrong_totals: self.wrong_totals.wrapping_add(other.wrong_totals),
            dependent: self.dependent.wrapping_add(other.dependent),
            wrong_shares: self.wrong_shares.wrapping_add(other.wrong_shares),
            wrong_cuts: self.wrong_cuts.wrapping_add(other.wrong_cuts),
            away_bytes: self.away_bytes.wrapping_add(other.away_bytes),
            short: self.short.wrapping_add(other.short),
            beyond: self.beyond.wrapping_add(other.beyond),
            changed: self.changed.wrapping_add(other.changed),
            changed_away: self.changed_away.wrapping_add(other.changed_away),
            changed_accepted: self.changed_accepted.wrapping_add(other.changed_accepted),
            changed_wrong: self.changed_wrong.wrapping_add(other.changed_wrong),
        }
    }
}

impl AddAssign for Counts {
    fn add_assign(&mut self, other: Counts) {
        *self = *self + other;
    }
}

impl Counts {
    // The plans, on two lines.
    fn show_plans(&self, rt: &impl Print) -> io::Result<()> {
        println!(rt;
            "  plans {}, with a team away {}, with every team away {}; teams {}, away {}",
            self.plans, self.plans_away, self.plans_all_away, self.teams, self.away
        )?;
        println!(rt;
            "  a best division short of a share {}; shares other than v(all) / p {}, other than among n {}",
            self.short_best, self.apart, self.raised
        )
    }

    // The sheets that Build writes, on a line.
    fn show_sheets(&self, rt: &impl Print) -> io::Result<()> {
        print!(rt;
            "  sheets accepted {}, totals {}, shares {}; differences: totals {}, bundles {}, shares {}, cuts {}",
            self.accepted,
            self.totals,
            self.shares,
            self.wrong_totals,
            self.dependent,
            self.wrong_shares,
            self.wrong_cuts
        )?;
        println!(rt;
            ", bytes of teams away {}, short teams {}, bytes beyond {}",
            self.away_bytes, self.short, self.beyond
        )
    }

    // The changed sheets, on a line.
    fn show_changed(&self, rt: &impl Print) -> io::Result<()> {
        println!(rt;
            "  changed sheets {}, on the page of a team away {}, accepted {}, differences {}",
            self.changed, self.changed_away, self.changed_accepted, self.changed_wrong
        )
    }

    // The first, the fourth and the fifth group.
    pub fn show(&self, rt: &impl Print) -> io::Result<()> {
        self.show_plans(rt)?;
        self.show_sheets(rt)?;
        self.show_changed(rt)
    }

    // The loan days, on a line.
    // Kept (point 2): two texts with other counts in them, which one function would take as its arguments, text and all.
    pub fn show_days(&self, rt: &impl Print) -> io::Result<()> {
        println!(rt;
            "  a team and an instrument: out of its days {}, by one day {}, within with an equal end {}; other than without SHELF: shares {}, totals {}",
            self.barred, self.near, self.level, self.lower_shares, self.lower_totals
        )
    }

    // The glued instruments, on a line.
    pub fn show_glued(&self, rt: &impl Print) -> io::Result<()> {
        println!(rt;
            "  plans refused with 18 besides {}, differences {}; glued instruments of the others {}; other than without GLUE: shares {}, totals {}",
            self.fallen, self.fallen_wrong, self.glued, self.gained_shares, self.gained_totals
        )
    }
}
