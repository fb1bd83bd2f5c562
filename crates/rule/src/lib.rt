// For tests: independence, worth and gains as documents 01 and 02 define them, computed in other ways than the crate `kinds` uses. A worth is
// found by trying each part of a set; a closed loop by trimming: where a joint has one gauge only, that gauge is in no loop; mounts by Hall's
// condition.
#![tactic(auto)]

ghost use Rattle.std.specs.Prelude.{◌≡◌, ◌&&◌, ℕ, ◌<◌, ◌≤◌, ◌∷◌, [], ltb, min, slice_index};
ghost use Rattle.sets.specs.Bits.{bit};

use team::{Kind, Team};

pub mod glue;
mod hall;
pub mod loan;
pub mod random;

// Joints are 0 to 39: written here once more, so that the tests see a wrong number in the code.
pub const JOINTS: u8 = 40;

// A rule of independence, and what it says of a set.
pub trait Independence {
    // Whether a set is independent.
    fn independent(&self, set: u64) -> bool;

    // The size of the largest independent part of a set that has at most seven members below m.
    final fn worth(&self, m: usize, set: u64) -> usize
        ensures { result ≤ 64 }
    {
        let members = below(m, set);
        (0..128u64).fold(
            0,
            |most, digits|
                ensures { most ≤ 64 → result ≤ 64 }
            {
                let part = picked(members, digits);
                let size = sets::size(part);
                if size > most && self.independent(part) {
                    size
                } else {
                    most
                }
            },
        )
    }

    // The instruments below m, outside an independent set, with which it stays independent.
    final fn gains(&self, m: usize, set: u64) -> u64 {
        let members = below(m, set);
        sets::members(sets::minus(below(m, u64::MAX), members))
            .filter(|g| self.independent(sets::with(members, *g)))
            .fold(0, sets::with)
    }

    // An independent set with members of another below m: each, in rising order, that keeps it independent.
    final fn joined(&self, m: usize, start: u64, set: u64) -> u64 {
        sets::members(below(m, set)).fold(start, |larger, g| {
            let next = sets::with(larger, g);
            if self.independent(next) { next } else { larger }
        })
    }
}

// To a team of no kind only the empty set is independent.
impl Independence for Team {
    fn independent(&self, set: u64) -> bool {
        sets::size(set) <= usize::from(self.channels)
            && match Kind::try_from(self.kind) {
                Ok(Kind::Caps) => caps_allow(self, set),
                Ok(Kind::Loops) => loops_allow(self, set),
                Ok(Kind::Mounts) => hall::allow(self, set),
                Err(_) => set == 0,
            }
    }
}

// The command that names an instrument: its byte, 255 where there is none, and its four operands after the instrument.
// Kept (points 1, 6): Team has 255 for no command and a table for each operand, as blank_team and the theorems on a reading have it.
pub fn naming(team: &Team, g: usize) -> [u8; 5]
    requires { g < 64 }
    ensures { result ≡ slice_index team.now.named g ∷ slice_index team.now.first g ∷ slice_index team.now.second g ∷ slice_index team.now.third g
        ∷ slice_index team.now.fourth g ∷ [] }
{
    [
        team.named[g],
        team.first[g],
        team.second[g],
        team.third[g],
        team.fourth[g],
    ]
}

// How many members of a set are of a class.
fn of_class(team: &Team, set: u64, class: usize) -> usize {
    sets::members(set)
        .filter(|g| usize::from(team.first[*g]) == class)
        .count()
}

// Independence for a CAPS team, channels aside: each member is in a class, and no class has more members than its cap.
fn caps_allow(team: &Team, set: u64) -> bool {
    sets::members(set).all(|g| team.first[g] < 16)
        && (0..16).all(|class| of_class(team, set, class) <= usize::from(team.cap[class]))
}

// Whether an instrument's ends are two different joints.
fn spans(a: u8, b: u8) -> bool {
    a < JOINTS && b < JOINTS && a != b
}

// How many members of a set have an end at a joint.
fn at_joint(team: &Team, set: u64, joint: u8) -> usize {
    sets::members(set)
        .filter(|g| team.first[*g] == joint || team.second[*g] == joint)
        .count()
}

// A set without its loose members: those with an end where no other member has one.
fn trimmed(team: &Team, set: u64) -> u64 {
    let alone = |joint| at_joint(team, set, joint) == 1;
    sets::members(set)
        .filter(|g| !alone(team.first[*g]) && !alone(team.second[*g]))
        .fold(0, sets::with)
}

// Whether a set of spans has no closed loop: trimming it as often as it has members leaves nothing.
fn loop_free(team: &Team, set: u64) -> bool {
    let mut rest = set;
    for _ in 0..sets::size(set) {
        rest = trimmed(team, rest);
    }
    rest == 0
}

// Independence for a LOOPS team, channels aside.
fn loops_allow(team: &Team, set: u64) -> bool {
    sets::members(set).all(|g| spans(team.first[g], team.second[g])) && loop_free(team, set)
}

// The part of a set that the binary digits of a number pick, the lowest digit for the lowest member.
fn picked(set: u64, digits: u64) -> u64 {
    sets::members(set)
        .zip(0..64)
        .filter(|(_, k)| sets::member(digits, *k))
        .fold(0, |part, (g, _)| sets::with(part, g))
}

// The members below m.
pub fn below(m: usize, set: u64) -> u64
    ensures { (j : ℕ) → bit result j ≡ (bit set j && ltb j (min m 64)) }
{
    sets::both(set, sets::all_below(m.min(64)))
}
