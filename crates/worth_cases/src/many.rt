// The verbs `many COUNT SEED ROWS`, `glued COUNT SEED ROWS` and `lent COUNT SEED ROWS`, with a seed from 1 on: that many random cases of a
// family, worth and gains beside the definition.
ghost use Rattle.std.specs.Prelude.{◌<◌};

use crate::draw::{Case, Family};
use crate::loan::Ends;
use crate::{defined, draw, loan};
use lines::bytes;
use rule::Independence;
use rule::random::Random;
use std::{array, io};

// What is drawn besides the team and the set: nothing, so that every instrument is usable and none is glued; usable and glued instruments; or
// loan days, which say what is usable.
#[derive(Clone, Copy, PartialEq, Eq)]
pub enum Sort {
    Plain,
    Glued,
    Lent,
}

// The number of each; any other number is a plain one too.
// Kept (point 1): `answer` takes whichever number.
pub const PLAIN: u8 = 0;

pub const GLUED: u8 = 1;

pub const LENT: u8 = 2;

impl Sort {
    // The sort of a number.
    fn of(number: u8) -> Sort {
        match number {
            GLUED => Sort::Glued,
            LENT => Sort::Lent,
            _ => Sort::Plain,
        }
    }
}

// Of the cases so far: the worths added up, the instruments gained, and how many answers differ from the definition's.
#[derive(Clone, Copy, Default)]
struct Tally {
    worth: u64,
    gains: u64,
    differences: u64,
}

impl Tally {
    // Counts a difference where the definition says another.
    fn compare(&mut self, answer: u64, right: u64) {
        self.differences = self.differences.wrapping_add(u64::from(answer != right));
    }

    // Adds a case's worth.
    fn add_worth(&mut self, c: &Case) {
        let answer = kinds::worth_of(c.valuation, c.m, c.set) as u64;
        self.worth = self.worth.wrapping_add(answer);
        self.compare(answer, defined::worth(c));
    }

    // Adds the gains of an independent part of a case's set; what the set has at or above m stays.
    fn add_gains(&mut self, c: &Case) {
        let above = sets::minus(c.set, sets::all_below(c.m));
        let set = sets::either(defined::part(c), above);
        let answer = kinds::gains_of(c.valuation, c.m, set);
        self.gains = self.gains.wrapping_add(sets::size(answer) as u64);
        self.compare(answer, defined::gains(c, set));
    }

    // Compares the worth of a case's set by the words of note 6, where an instrument is glued. A glued instrument is not usable there.
    fn compare_glued(&mut self, c: &Case) {
        let v = &c.valuation;
        let own = rule::below(c.m, v.glued);
        if own != 0 {
            let answer = kinds::worth_of(defined::glued(v, own), c.m, c.set);
            let right = defined::site(v, own).worth(c.m, c.set);
            self.compare(answer as u64, right as u64);
        }
    }

    // Adds a case.
    fn add(&mut self, c: &Case) {
        self.add_worth(c);
        self.add_gains(c);
        self.compare(c.valuation.usable, c.usable);
        self.compare_glued(c);
    }
}

// A case of a family, with what is drawn besides.
fn case(f: &Family, e: &Ends, sort: Sort, random: &mut Random) -> Case {
    let c = draw::drawn(f, random);
    match sort {
        Sort::Plain => c,
        Sort::Glued => draw::glued(&c, random),
        Sort::Lent => loan::lent(&c, e, random),
    }
}

// The tally of so many cases of a family.
fn tallied(f: &Family, e: &Ends, sort: Sort, count: usize, seed: u64) -> Tally {
    let mut tally = Tally::default();
    let mut random = Random::new(seed);
    for _ in 0..count {
        tally.add(&case(f, e, sort, &mut random));
    }
    tally
}

// The row of eight bytes at a number.
fn row(bytes: &[u8; 128], k: usize) -> [u8; 8]
    requires { k < 16 }
{
    array::from_fn(|i| bytes[k * 8 + i])
}

// The family whose rows these are.
// Kept (point 2): `family` and `ends` name the rows of two structs, and share nothing but their shape.
fn family(bytes: &[u8; 128]) -> Family {
    Family {
        kinds: row(bytes, 0),
        counts: row(bytes, 1),
        channels: row(bytes, 2),
        caps: row(bytes, 3),
        named: row(bytes, 4),
        operands: row(bytes, 5),
    }
}

// The ends of days whose rows these are: the six rows after the family's.
fn ends(bytes: &[u8; 128]) -> Ends {
    Ends {
        shelf_from: row(bytes, 6),
        shelf_to: row(bytes, 7),
        from: row(bytes, 8),
        to: row(bytes, 9),
        high_from: row(bytes, 10),
        high_to: row(bytes, 11),
    }
}

// How many bytes the rows of a verb have.
fn long(sort: Sort) -> usize {
    if sort == Sort::Lent { 96 } else { 48 }
}

// Answers a verb by `COUNT cases, worth W, gains G, differences D`. The rows are hexadecimal, in the order of a family's fields, and after them
// for `lent` those of the ends of days.
pub fn answer(rt: &impl Print, operands: &[u8], sort: u8) -> io::Result<()> {
    let sort = Sort::of(sort);
    let after = lines::rest(operands);
    let count = lines::number(operands);
    let seed = lines::number(after);
    let mut space = [0u8; 128];
    let rows = bytes::decoded(lines::rest(after), &mut space);
    if rows.len() != long(sort) {
        return print!(rt; "SIX ROWS OF EIGHT BYTES, AND FOR lent TWELVE");
    }
    let Tally {
        worth,
        gains,
        differences,
    } = tallied(&family(&space), &ends(&space), sort, count, seed as u64);
    print!(rt; "{count} cases, worth {worth}, gains {gains}, differences {differences}")
}
