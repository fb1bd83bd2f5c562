// Random small plans.
ghost use Rattle.std.specs.Prelude.{◌≤◌};

use rule::JOINTS;
use rule::random::Random;
use std::array;
use team::{Kind, Team};

// What each part of a plan is drawn from, one of eight each: the count of instruments, the count of teams, and a team's kind, channels, caps,
// classes, joints and mounts; a byte of the mounts stands for eight.
// Kept (point 1): the kinds are bytes, since a team may be drawn that a byte of no kind opens.
#[derive(Clone, Copy)]
pub struct Family {
    pub counts: [u8; 8],
    pub teams: [u8; 8],
    pub kinds: [u8; 8],
    pub channels: [u8; 8],
    pub caps: [u8; 8],
    pub classes: [u8; 8],
    pub joints: [u8; 8],
    pub mounts: [u8; 8],
}

// The command that names an instrument of a MOUNTS team: a FIT, or none for one of eight.
// Kept (point 1): the bytes go into a Team, which has 255 for none, as blank_team says.
const NAMED: [u8; 8] = [9, 9, 9, 9, 9, 9, 9, 255];

// A team of a plan, and the set of the instruments glued to it.
#[derive(Clone, Copy)]
pub struct Member {
    pub team: Team,
    pub glued: u64,
}

// A plan of at most 5 instruments and 3 teams: m instruments and the first n of three teams. In the pool SHELFs name the instruments as FITs do in a
// MOUNTS team.
#[derive(Clone, Copy)]
pub struct SmallPlan {
    pub m: usize,
    pub n: usize,
    pub pool: Team,
    pub members: [Member; 3],
    ghost counts: { (m ≤ 5) × (n ≤ 3) },
}

// A plan that is tried: it has a team.
#[derive(Clone, Copy)]
pub struct Drawing {
    pub plan: SmallPlan,
    ghost counts: { (plan.m ≤ 5) × (1 ≤ plan.n) × (plan.n ≤ 3) },
}

impl SmallPlan {
    // The teams of the plan.
    pub fn teams(&self) -> &[Member] {
        &self.members[..self.n]
    }
}

// A table whose first eight bytes are drawn, each one of eight; 255 stands in the others.
fn entries(choice: &[u8; 8], random: &mut Random) -> [u8; 64] {
    array::from_fn(|g| if g < 8 { random.pick(choice) } else { 255 })
}

// The caps of classes 0 to 3; the others have cap 0.
fn caps_of(bytes: &[u8; 64]) -> [u8; 16] {
    array::from_fn(|class| if class < 4 { bytes[class] } else { 0 })
}

// The second joint of a span: none where there is no first one, and the joint after the first where the drawn one is no other joint.
fn other(a: u8, b: u8) -> u8 {
    if a >= JOINTS {
        255
    } else if a != b && b < JOINTS {
        b
    } else {
        (a + 1) % JOINTS
    }
}

// What the operands of a team of a kind are drawn from; those of a team of no kind are a MOUNTS team's.
fn choice(f: &Family, kind: Option<Kind>) -> [u8; 8] {
    match kind {
        Some(Kind::Caps) => f.classes,
        Some(Kind::Loops) => f.joints,
        _ => f.mounts,
    }
}

// A team of a kind, or of none, by the byte that opens it.
fn of_kind(f: &Family, byte: u8, random: &mut Random) -> Team {
    let kind = Kind::try_from(byte).ok();
    let own = choice(f, kind);
    let first = entries(&own, random);
    let drawn = entries(&own, random);
    let third = entries(&own, random);
    let fourth = entries(&own, random);
    let named = entries(&NAMED, random);
    let caps = entries(&f.caps, random);
    let second = match kind {
        Some(Kind::Loops) => array::from_fn(|g| other(first[g], drawn[g])),
        _ => drawn,
    };
    Team {
        kind: byte,
        channels: random.pick(&f.channels),
        cap: caps_of(&caps),
        named,
        first,
        second,
        third,
        fourth,
        days: [255; 5],
    }
}

// A team, with no GLUE.
fn one(f: &Family, random: &mut Random) -> Member {
    let byte = random.pick(&f.kinds);
    Member {
        team: of_kind(f, byte, random),
        glued: 0,
    }
}

// A plan of a family: up to 5 instruments and 1 to 3 teams, with no SHELF, no DAYS and no GLUE.
pub fn drawn(f: &Family, random: &mut Random) -> SmallPlan
    ensures { (result.m ≤ 5) × (1 ≤ result.n) × (result.n ≤ 3) }
{
    let members = array::from_fn(|_| one(f, random));
    let m = usize::from(random.pick(&f.counts)).min(5);
    let n = usize::from(random.pick(&f.teams)).clamp(1, 3);
    SmallPlan {
        m,
        n,
        pool: team::blank(),
        members,
    }
}
