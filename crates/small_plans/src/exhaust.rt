// The greatest total over all divisions and the best cut over all cuts, by a search through all of them.
ghost use Rattle.std.specs.Prelude.{◌≤◌};

use crate::draw::{Member, SmallPlan};
use crate::glue;
use rule::Independence;
use std::array;

// One of four teams: whether it is present, and what each set of five instruments is worth to it. A team that is not in the plan is away, and
// every set is worth 0 to it.
#[derive(Clone, Copy)]
pub struct Seat {
    pub here: bool,
    pub worths: [u8; 32],
}

const EMPTY: Seat = Seat {
    here: false,
    worths: [0; 32],
};

// What one of four teams holds, and its share.
#[derive(Clone, Copy)]
pub struct Lot {
    pub bundle: u64,
    pub share: u64,
}

// What the search finds of a plan of m instruments and n teams: the greatest total, the bundles of the first division that comes to it, and each
// team's share.
#[derive(Clone, Copy)]
pub struct Found {
    pub m: usize,
    pub n: usize,
    pub seats: [Seat; 4],
    pub total: u64,
    pub lots: [Lot; 4],
    ghost counts: { (m ≤ 5) × (n ≤ 3) },
}

impl Found {
    // The number p of the teams that are present.
    pub fn present(&self) -> usize
        ensures { result ≤ self.now.n }
    {
        present(&self.seats, self.n)
    }
}

impl Lot {
    // Whether the team holds less than its share.
    pub fn is_short(&self) -> bool {
        (sets::size(self.bundle) as u64) < self.share
    }
}

// The size of the largest independent part of a set, by which sets of five instruments are independent.
fn largest(free: &[bool; 32], set: u64) -> u8 {
    let size = (0..32)
        .zip(free)
        .filter(|(part, free)| **free && sets::minus(*part, set) == 0)
        .map(|(part, _)| sets::size(part))
        .max()
        .unwrap_or(0);
    u8::try_from(size).unwrap_or(u8::MAX)
}

impl Seat {
    // A team of a plan, by the pool's SHELFs and the GLUEs. A set with a member at or above m is never independent.
    fn of(d: &SmallPlan, member: &Member) -> Seat {
        let site = glue::site(&d.pool, &d.members, member);
        let all = sets::all_below(d.m);
        let free = array::from_fn(|k| {
            let set = k as u64;
            sets::minus(set, all) == 0 && site.independent(set)
        });
        Seat {
            here: member.team.channels > 0,
            worths: array::from_fn(|k| largest(&free, k as u64)),
        }
    }

    // What a set is worth to the team.
    pub fn worth(&self, set: u64) -> u64
        ensures { result ≤ 255 }
    {
        u64::from(self.worths[(set % 32) as usize])
    }

    // What the worst of the first p parts is worth to the team.
    pub fn least(&self, parts: &[u64; 4], p: usize) -> u64 {
        parts
            .iter()
            .take(p)
            .map(|part| self.worth(*part))
            .min()
            .unwrap_or(255)
    }

    // The team's share among p: the best of all cuts into p parts, by the worst part. A team that is away has share 0.
    pub fn share(&self, p: usize) -> u64 {
        if !self.here || p == 0 {
            return 0;
        }
        (0..243)
            .map(|number| self.least(&parts(number, p), p))
            .max()
            .unwrap_or(0)
    }
}

// The seats of the teams of a plan.
fn seats(d: &SmallPlan) -> [Seat; 4] {
    let mut seats = [EMPTY; 4];
    for (seat, member) in seats.iter_mut().zip(d.teams()) {
        *seat = Seat::of(d, member);
    }
    seats
}

// How many of the first n teams are present: those with channels above 0.
pub fn present(seats: &[Seat; 4], n: usize) -> usize
    ensures { result ≤ n }
{
    seats.iter().take(n).filter(|seat| seat.here).count()
}

// The parts that a number cuts five instruments into: its digit g, to a base of up to 4, is the part of instrument g.
fn parts(number: usize, base: usize) -> [u64; 4]
    requires { 1 ≤ base }
{
    let mut parts = [0; 4];
    let mut left = number;
    for g in 0..5 {
        if let Some(part) = parts.get_mut(left % base) {
            *part = sets::with(*part, g);
        }
        left /= base;
    }
    parts
}

// The sum of the worths of four bundles.
pub fn total(seats: &[Seat; 4], bundles: &[u64; 4]) -> u64 {
    seats.iter().zip(bundles).fold(
        0,
        |sum, (seat, bundle)| sum.wrapping_add(seat.worth(*bundle)),
    )
}

// The first division among n teams and the pool that has the greatest total.
fn best_division(seats: &[Seat; 4], n: usize) -> [u64; 4]
    requires { n ≤ 3 }
{
    let mut best = parts(0, n + 1);
    let mut most = 0;
    // Kept (point 3): the first of the greatest counts, and max_by_key answers the last.
    for number in 0..1024 {
        let bundles = parts(number, n + 1);
        let sum = total(seats, &bundles);
        if sum > most {
            most = sum;
            best = bundles;
        }
    }
    best
}

// Searches through all divisions and all cuts of a plan.
pub fn search(d: &SmallPlan) -> Found {
    let seats = seats(d);
    let bundles = best_division(&seats, d.n);
    let p = present(&seats, d.n);
    Found {
        m: d.m,
        n: d.n,
        seats,
        total: total(&seats, &bundles),
        lots: array::from_fn(|t| Lot {
            bundle: bundles[t],
            share: seats[t].share(p),
        }),
    }
}
