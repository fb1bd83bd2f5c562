// Random valuations and sets.
ghost use Rattle.std.specs.Prelude.{◌<◌, ◌≤◌};

use kinds::Valuation;
use rule::random::Random;
use std::array;
use team::Team;

// What each part of a case is drawn from: eight bytes for the kind, the count of instruments, the channels, a cap, the command that names an
// instrument, and each operand of that command after the instrument: a class, a joint or eight mounts.
#[derive(Clone, Copy)]
pub struct Family {
    pub kinds: [u8; 8],
    pub counts: [u8; 8],
    pub channels: [u8; 8],
    pub caps: [u8; 8],
    pub named: [u8; 8],
    pub operands: [u8; 8],
}

// A valuation, a count of instruments and a set, and the instruments that are usable by the definition.
#[derive(Clone, Copy)]
pub struct Case {
    pub valuation: Valuation,
    pub m: usize,
    pub set: u64,
    pub usable: u64,
    ghost count: { m ≤ 64 },
}

// A table of bytes, each one of eight.
fn entries(choice: &[u8; 8], random: &mut Random) -> [u8; 64] {
    array::from_fn(|_| random.pick(choice))
}

// A team of a family.
fn filled(f: &Family, random: &mut Random) -> Team {
    let first = entries(&f.operands, random);
    let second = entries(&f.operands, random);
    let third = entries(&f.operands, random);
    let fourth = entries(&f.operands, random);
    let named = entries(&f.named, random);
    let caps = entries(&f.caps, random);
    Team {
        kind: random.pick(&f.kinds),
        channels: random.pick(&f.channels),
        cap: array::from_fn(|class| caps[class]),
        named,
        first,
        second,
        third,
        fourth,
        days: [255; 5],
    }
}

// An instrument below m, and 0 where m is 0.
fn place(m: usize, random: &mut Random) -> usize
    requires { m ≤ 64 }
    ensures { result < 64 }
{
    let number = (random.next() / 256) as usize;
    if m == 0 { 0 } else { number % m }
}

// Up to seven members, from as many as eleven draws.
fn members(m: usize, random: &mut Random) -> u64
    requires { m ≤ 64 }
{
    let draws = random.next() / 256 % 12;
    let mut set = 0;
    for k in 0..12 {
        let g = place(m, random);
        if k < draws && sets::size(set) < 7 {
            set = sets::with(set, g);
        }
    }
    set
}

// All the bits of a word at or above m, or none.
fn above(m: usize, random: &mut Random) -> u64 {
    if random.next() / 256 % 2 == 0 {
        0
    } else {
        sets::minus(u64::MAX, rule::below(m, u64::MAX))
    }
}

// A case of a family: every instrument is usable and none is glued. The set has at most seven members below m.
pub fn drawn(f: &Family, random: &mut Random) -> Case {
    let team = filled(f, random);
    let m = usize::from(random.pick(&f.counts)).min(64);
    let below = members(m, random);
    let set = sets::either(below, above(m, random));
    let usable = sets::all_below(m);
    Case {
        valuation: Valuation {
            team,
            usable,
            glued: 0,
        },
        m,
        set,
        usable,
    }
}

// A word of three numbers.
fn mixed(random: &mut Random) -> u64 {
    let a = random.next();
    let b = random.next();
    let c = random.next();
    a ^ (b << 21) ^ (c << 42)
}

// A word in which three of four bits are 1.
fn most(random: &mut Random) -> u64 {
    let word = mixed(random);
    sets::either(word, mixed(random))
}

// A case with other usable and glued instruments. The set and the glued instruments are parts of the case's set, and may share members.
pub fn glued(c: &Case, random: &mut Random) -> Case {
    let stays = most(random);
    let loose = most(random);
    let usable = most(random);
    Case {
        valuation: Valuation {
            team: c.valuation.team,
            usable,
            glued: sets::minus(c.set, loose),
        },
        m: c.m,
        set: sets::both(c.set, stays),
        usable,
    }
}
