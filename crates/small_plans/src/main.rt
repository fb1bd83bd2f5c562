// Random plans of up to five instruments and three teams, about one team in four away, without loan days and with them, and with glued
// instruments: Build's sheets, and what Check says of them and of changed ones, beside a search through all divisions and all cuts.
#![tactic(auto)]

use counts::Counts;
use draw::{Drawing, Family};
use loan::Ends;
use rule::loan::{DAYS, SHELF};
use rule::random::Random;
use std::io;

mod away;
mod changes;
mod compare;
mod counts;
mod cuts;
mod draw;
mod encode;
mod ends;
mod exhaust;
mod gained;
mod glue;
mod loan;
mod stated;
mod trial;

// CAPS teams with small caps.
const CAPS: Family = Family {
    counts: [5, 5, 5, 5, 4, 3, 1, 0],
    teams: [3, 3, 3, 3, 2, 2, 2, 1],
    kinds: [2; 8],
    channels: [0, 0, 1, 2, 2, 3, 5, 255],
    caps: [0, 1, 1, 1, 1, 2, 2, 3],
    classes: [0, 0, 1, 1, 2, 3, 4, 255],
    joints: [0, 0, 1, 1, 2, 2, 3, 255],
    mounts: [0, 0, 0, 0, 0, 0, 1, 1],
};

// LOOPS teams on few joints.
const LOOPS: Family = Family {
    kinds: [3; 8],
    ..CAPS
};

// MOUNTS teams on four mounts, each of them the first of a byte.
const MOUNTS: Family = Family {
    kinds: [8; 8],
    ..CAPS
};

// MOUNTS teams whose masks are sparse or full.
const MASKS: Family = Family {
    channels: [0, 0, 3, 4, 5, 5, 255, 255],
    mounts: [0, 0, 0, 0, 0, 2, 128, 255],
    ..MOUNTS
};

// Teams of every kind, whose operands are scarce.
const MIXED: Family = Family {
    kinds: [2, 3, 8, 2, 3, 8, 2, 8],
    classes: [0, 0, 0, 1, 1, 2, 255, 255],
    joints: [0, 0, 0, 1, 1, 2, 39, 255],
    ..CAPS
};

// One team that takes nearly everything beside teams that take little.
const UNEVEN: Family = Family {
    counts: [5; 8],
    teams: [2, 3, 2, 3, 2, 3, 2, 3],
    kinds: [2, 2, 3, 2, 8, 3, 2, 8],
    channels: [0, 0, 5, 5, 5, 5, 255, 255],
    caps: [1, 1, 1, 2, 5, 5, 5, 255],
    classes: [0, 0, 1, 1, 1, 2, 2, 255],
    joints: [0, 1, 2, 3, 0, 1, 2, 3],
    mounts: [0, 0, 0, 0, 0, 1, 1, 255],
};

// Days 0 to 9: most ends of the teams' days are shelf ends, or one day off.
const FEW: Ends = Ends {
    shelf: [SHELF, SHELF, SHELF, SHELF, SHELF, SHELF, SHELF, 255],
    shelf_from: [0, 0, 1, 1, 2, 2, 3, 4],
    shelf_to: [5, 6, 6, 7, 7, 8, 8, 9],
    days: [DAYS, DAYS, DAYS, DAYS, DAYS, DAYS, DAYS, 255],
    from: [1, 2, 2, 3, 3, 3, 4, 4],
    to: [4, 5, 5, 6, 6, 7, 7, 8],
};

// Days about 255, 512 and 767, in which both bytes count.
const WIDE: Ends = Ends {
    shelf_from: [0, 1, 254, 255, 255, 256, 256, 257],
    shelf_to: [512, 513, 513, 767, 768, 768, 769, 65535],
    from: [255, 255, 256, 256, 257, 258, 511, 512],
    to: [511, 512, 512, 513, 767, 768, 769, 1024],
    ..FEW
};

// Days about 0 and 65,535, more than half of the teams with no DAYS.
const OPEN: Ends = Ends {
    shelf: [SHELF, SHELF, SHELF, SHELF, SHELF, 255, 255, 255],
    shelf_from: [0, 0, 0, 0, 0, 0, 1, 2],
    shelf_to: [65535, 65535, 65535, 65535, 65534, 65534, 65533, 1],
    days: [DAYS, DAYS, DAYS, DAYS, 255, 255, 255, 255],
    from: [0, 0, 0, 1, 1, 2, 65533, 65534],
    to: [65535, 65535, 65534, 65534, 65533, 65533, 65535, 1],
};

// No SHELF and no DAYS.
const NONE: Ends = Ends {
    shelf: [255; 8],
    days: [255; 8],
    ..FEW
};

// 1,000 plans of a family under a name, drawn after a seed, and what their loan days are drawn from.
#[derive(Drop)]
struct Sample {
    name: &'static str,
    family: Family,
    ends: Ends,
    seed: u64,
}

impl Sample {
    // The sample of these.
    fn of(name: &'static str, family: Family, ends: Ends, seed: u64) -> Sample {
        Sample {
            name,
            family,
            ends,
            seed,
        }
    }
}

// What is drawn besides the teams: nothing, loan days, or loan days and glued instruments.
#[derive(Clone, Copy)]
enum Sort {
    Plain,
    Lent,
    Glued,
}

// What one plan without loan days adds to the counts.
fn plain(s: &Sample, random: &mut Random) -> Counts {
    let d = Drawing {
        plan: draw::drawn(&s.family, random),
    };
    trial::run(&d.plan, *random)
}

// What one plan with loan days adds to the counts.
fn lent(s: &Sample, random: &mut Random) -> Counts {
    let d = Drawing {
        plan: loan::lent(&draw::drawn(&s.family, random), &s.ends, random),
    };
    trial::run(&d.plan, *random) + ends::of_plan(&d.plan)
}

// What one plan with loan days and glued instruments adds to the counts.
fn glued(s: &Sample, random: &mut Random) -> Counts {
    let d = loan::lent(&draw::drawn(&s.family, random), &s.ends, random);
    let d = Drawing {
        plan: glue::glued(&d, random),
    };
    gained::of_plan(&d.plan, *random)
}

// Kept (point 7): tried, a closure that takes a sample and a `&mut Random` gets no proof where it is handed on to the loop over plans.
impl Sort {
    // What the plans of a sample add to the counts.
    fn counted(self, s: &Sample) -> Counts {
        let mut random = Random::new(s.seed);
        let mut counts = Counts::default();
        for _ in 0..1000 {
            counts += match self {
                Sort::Plain => plain(s, &mut random),
                Sort::Lent => lent(s, &mut random),
                Sort::Glued => glued(s, &mut random),
            };
        }
        counts
    }

    // Shows counts.
    fn show(self, rt: &impl Print, counts: &Counts) -> io::Result<()> {
        counts.show(rt)?;
        match self {
            Sort::Plain => Ok(()),
            Sort::Lent => counts.show_days(rt),
            Sort::Glued => counts.show_glued(rt),
        }
    }
}

// Shows the counts of each sample under its name, and of all together under theirs.
fn run(rt: &impl Print, sort: Sort, samples: &[Sample], name: &str) -> io::Result<()> {
    let mut all = Counts::default();
    for sample in samples {
        let counts = sort.counted(sample);
        println!(rt; "{}", sample.name)?;
        sort.show(rt, &counts)?;
        all += counts;
    }
    println!(rt; "{name}")?;
    sort.show(rt, &all)
}

// Six families of plans without loan days, six with them, and five with glued instruments too.
fn main(rt: HostRuntime) -> io::Result<()> {
    let plain = [
        Sample::of("CAPS teams", CAPS, NONE, 20201),
        Sample::of("LOOPS teams", LOOPS, NONE, 20202),
        Sample::of("MOUNTS teams on four mounts", MOUNTS, NONE, 20203),
        Sample::of(
            "MOUNTS teams with sparse and full masks",
            MASKS,
            NONE,
            20204,
        ),
        Sample::of("teams of every kind", MIXED, NONE, 20205),
        Sample::of("uneven teams", UNEVEN, NONE, 20206),
    ];
    let lent = [
        Sample::of("CAPS teams with loan days", CAPS, FEW, 20207),
        Sample::of("LOOPS teams with loan days", LOOPS, FEW, 20208),
        Sample::of("MOUNTS teams with loan days", MASKS, FEW, 20209),
        Sample::of(
            "teams of every kind with loan days of two bytes",
            MIXED,
            WIDE,
            20210,
        ),
        Sample::of(
            "uneven teams with loan days of two bytes",
            UNEVEN,
            WIDE,
            20211,
        ),
        Sample::of(
            "uneven teams, more than half of them without DAYS",
            UNEVEN,
            OPEN,
            20212,
        ),
    ];
    let glued = [
        Sample::of("CAPS teams with glued instruments", CAPS, NONE, 20213),
        Sample::of("LOOPS teams with glued instruments", LOOPS, NONE, 20214),
        Sample::of("MOUNTS teams with glued instruments", MOUNTS, NONE, 20215),
        Sample::of("uneven teams with glued instruments", UNEVEN, NONE, 20216),
        Sample::of(
            "uneven teams with loan days and glued instruments",
            UNEVEN,
            OPEN,
            20217,
        ),
    ];
    run(&rt, Sort::Plain, &plain, "all")?;
    run(&rt, Sort::Lent, &lent, "all with loan days")?;
    run(&rt, Sort::Glued, &glued, "all with glued instruments")
}
