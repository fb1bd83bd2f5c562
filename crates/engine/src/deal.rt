// A share without a search: a number that no share exceeds, and a deal that gives every part as much.
ghost use Rattle.std.specs.Prelude.{◌≤◌, MatchResult};
ghost use Rattle.engine.specs.Deal.{Allowed, QuotaOf, InParts, Dealt};

use kinds::Valuation;

// What a set allows: no share is larger than the instruments outside it, in n parts, and what it is worth.
fn allowed(v: Valuation, m: usize, n: usize, set: u64) -> usize
    requires { (m ≤ 64) × (1 ≤ n) }
    ensures { Allowed m n v set result }
{
    sets::outside(m, set) / n + kinds::worth_of(v, m, set)
}

// A number that no share exceeds, and the set that shows it.
#[derive(Clone, Copy)]
pub struct Quota {
    pub share: usize,
    pub bound: u64,
}

// The lesser of what two sets allow: all instruments, and those that can be in no independent set.
pub fn quota_of(v: Valuation, m: usize, n: usize) -> Quota
    requires { (m ≤ 64) × (1 ≤ n) }
    ensures { QuotaOf m n v result }
{
    let instruments = sets::all_below(m);
    let unusable = sets::minus(instruments, kinds::gains_of(v, m, 0));
    let whole = allowed(v, m, n, instruments);
    let even = allowed(v, m, n, unusable);
    if whole < even {
        Quota {
            share: whole,
            bound: instruments,
        }
    } else {
        Quota {
            share: even,
            bound: unusable,
        }
    }
}

// A cut into parts that are each worth a share, where dealing gives one: each of n parts in turn takes what it can of what is left, at most the
// share. What nobody takes is in part 0. Where a part cannot be worth the share, the error is the cut so far.
pub fn dealt(v: Valuation, m: usize, n: usize, share: usize) -> Result<[u8; 64], [u8; 64]>
    requires { (m ≤ 64) × (1 ≤ n) × (n ≤ 12) }
    ensures { MatchResult result (Dealt m n v share) (InParts m n) }
{
    let mut left = sets::all_below(m);
    let mut part = [0u8; 64];
    for p in 0..n {
        let bundle = kinds::grown(v, m, 0, left, share);
        if sets::size(bundle) < share {
            return Err(part);
        }
        sets::assign(&mut part, bundle, p as u8);
        left = sets::minus(left, bundle);
    }
    Ok(part)
}
