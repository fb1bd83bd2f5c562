// What the bytes of a sheet state: the total, the division and the shares. A byte past the end counts as 0.
ghost use Rattle.std.specs.Prelude.{◌≤◌};

use crate::exhaust::{Found, Lot};
use command::decode::byte_at;
use std::array;

// The total, and what each of four teams holds and its share.
#[derive(Clone, Copy)]
pub struct Stated {
    pub total: u64,
    pub lots: [Lot; 4],
}

// The instruments that m GIVEs or PARTs from an offset on name each of four teams or parts for.
// Kept (point 5): a count and no Found, whose bound of the teams is not asked for.
pub fn named(sheet: &[u8], at: usize, m: usize) -> [u64; 4]
    requires { (at ≤ 3000) × (m ≤ 5) }
{
    let mut sets = [0; 4];
    for g in 0..m {
        let k = usize::from(byte_at(sheet, at + 3 * g + 2));
        if let Some(set) = sets.get_mut(k) {
            *set = sets::with(*set, g);
        }
    }
    sets
}

// The offset of the page of team t.
pub fn page_start(m: usize, t: usize) -> usize
    requires { (m ≤ 5) × (t ≤ 3) }
    ensures { result ≤ 2700 }
{
    sheet::share_start(m, t)
}

// The share in the SHARE of a team of a plan.
fn share(f: &Found, sheet: &[u8], t: usize) -> u64 {
    if t < f.n {
        u64::from(byte_at(sheet, page_start(f.m, t) + 2))
    } else {
        0
    }
}

// What a sheet of a plan states.
pub fn read(f: &Found, sheet: &[u8]) -> Stated {
    let bundles = named(sheet, sheet::give_start(0), f.m);
    Stated {
        total: u64::from(byte_at(sheet, 3)),
        lots: array::from_fn(|t| Lot {
            bundle: bundles[t],
            share: share(f, sheet, t),
        }),
    }
}
