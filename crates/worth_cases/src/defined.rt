// Worth and gains by a case's valuation as the words of documents 01 and 02 define them, by the crate `rule`: what a set adds to the glued
// instruments.
use crate::draw::Case;
use kinds::Valuation;
use rule::Independence;
use rule::glue::Site;

// The glued instruments below m, where they are independent.
fn stands(c: &Case) -> Option<u64> {
    let glued = rule::below(c.m, c.valuation.glued);
    if c.valuation.team.independent(glued) {
        Some(glued)
    } else {
        None
    }
}

// The worth of the case's set, which has, with the glued instruments, at most seven members below m.
pub fn worth(c: &Case) -> u64 {
    let Some(glued) = stands(c) else {
        return 0;
    };
    let v = &c.valuation;
    let whole = sets::either(sets::both(c.set, v.usable), glued);
    (v.team.worth(c.m, whole) as u64).wrapping_sub(sets::size(glued) as u64)
}

// The usable instruments below m, outside an independent set, with which it stays independent.
pub fn gains(c: &Case, set: u64) -> u64 {
    let Some(glued) = stands(c) else {
        return 0;
    };
    let v = &c.valuation;
    sets::both(v.team.gains(c.m, sets::either(set, glued)), v.usable)
}

// An independent part of the members of the case's set below m: each, in rising order, that is usable and keeps it independent.
pub fn part(c: &Case) -> u64 {
    let v = &c.valuation;
    let glued = rule::below(c.m, v.glued);
    let offered = sets::both(c.set, v.usable);
    sets::minus(v.team.joined(c.m, glued, offered), glued)
}

// A valuation with its glued instruments, none of them usable.
pub fn glued(v: &Valuation, own: u64) -> Valuation {
    Valuation {
        team: v.team,
        usable: sets::minus(v.usable, own),
        glued: own,
    }
}

// The same for the words of note 6: what is not usable is glued, to the team or to another.
pub fn site(v: &Valuation, own: u64) -> Site {
    Site {
        team: v.team,
        usable: u64::MAX,
        own,
        anyone: sets::minus(u64::MAX, sets::minus(v.usable, own)),
    }
}
