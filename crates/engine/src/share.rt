// The maximin share of a valuation. A deal of what no share exceeds is tried first; where it fails, n agents of the same valuation are filled
// and levelled.
ghost use Rattle.std.specs.Prelude.{◌≤◌};
ghost use Rattle.engine.specs.Share.{Parted, ShareOf};

use super::deal::{dealt, quota_of};
use super::fill::fill;
use super::level::level;
use exchange::Agents;
use kinds::Valuation;

// A share, the set that bounds it, and a cut into parts each worth the share.
#[derive(Clone, Copy)]
pub struct Shared {
    pub share: u8,
    pub bound: u64,
    pub part: [u8; 64],
}

// A cut of m instruments: what is in the pool joins part 0.
fn parts(owner: [u8; 64], m: usize, n: usize) -> [u8; 64]
    requires { m ≤ 64 }
    ensures { Parted owner n m result }
{
    let mut part = [0u8; 64];
    for (g, t) in owner[..m].iter().enumerate() {
        if (*t as usize) < n {
            part[g] = *t;
        }
    }
    part
}

// The share by a search: n agents of the same valuation are filled and levelled. The quota is for the start alone.
fn searched(v: Valuation, m: usize, n: usize, quota: u8) -> Shared
    requires { (m ≤ 64) × (1 ≤ n) × (n ≤ 12) }
    ensures { ShareOf m n v result }
{
    let s = Agents {
        m,
        n,
        valuations: [v; 12],
    };
    let f = fill(s, [quota; 12]);
    let h = f.holding;
    let share = (h.total() / n) as u8;
    let levelled = level(s, h.measured([share; 12]));
    let part = parts(levelled.owner, m, n);
    Shared {
        share,
        bound: f.bound,
        part,
    }
}

// The share of a valuation among n, with its certificates.
pub fn share_of(v: Valuation, m: usize, n: usize) -> Shared
    requires { (m ≤ 64) × (1 ≤ n) × (n ≤ 12) }
    ensures { ShareOf m n v result }
{
    let q = quota_of(v, m, n);
    let share = q.share as u8;
    match dealt(v, m, n, q.share) {
        Ok(part) => Shared {
            share,
            bound: q.bound,
            part,
        },
        Err(_) => searched(v, m, n, share),
    }
}
