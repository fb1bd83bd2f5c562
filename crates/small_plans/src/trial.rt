// One plan: Build's sheet, Check's answer to it, and the search.
use crate::counts::Counts;
use crate::draw::SmallPlan;
use crate::exhaust::Found;
use crate::{changes, compare, encode, exhaust};
use command::refusal::Refusal;
use rule::random::Random;

// What stands in each byte before Build.
const FILLER: u8 = 0xaa;

// How many bytes are not the filler.
fn written(bytes: &[u8]) -> u64 {
    bytes.iter().filter(|byte| **byte != FILLER).count() as u64
}

// What Build's sheet for a plan, and the changes of it, add to the counts; a refusal adds nothing.
fn of_plan(f: &Found, plan: &[u8], random: Random) -> Counts {
    let mut space = [FILLER; 128];
    match builder::build(plan, &mut space) {
        Err(_) => Counts::default(),
        Ok(long) => {
            let (sheet, beyond) = space.split_at_mut(long.min(128));
            let counts = Counts {
                accepted: u64::from(changes::accepted(plan, sheet)),
                beyond: written(beyond),
                ..compare::of_sheet(f, sheet)
            };
            counts + changes::changes(f, plan, sheet, random)
        }
    }
}

// The counts of one drawn plan, with changes drawn after it.
pub fn run(d: &SmallPlan, random: Random) -> Counts {
    let f = exhaust::search(d);
    let plan = encode::plan(d);
    compare::of_plan(f.n, &f.seats, &f.lots) + of_plan(&f, plan.bytes(), random)
}

// Whether Build refuses one drawn plan with 18 at its END, and writes nothing.
pub fn refused(d: &SmallPlan) -> bool {
    let encoded = encode::plan(d);
    let plan = encoded.bytes();
    let mut space = [FILLER; 128];
    let end = match builder::build(plan, &mut space) {
        Err(Refusal { number: 18, place }) => plan.len().checked_sub(1) == Some(place),
        _ => false,
    };
    end && written(&space) == 0
}
