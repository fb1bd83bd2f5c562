// Divide: a division of greatest total in which every agent has at least its share.
ghost use Rattle.std.specs.Prelude.{◌≤◌};
ghost use Rattle.sets.specs.Bits.{bit};
ghost use Rattle.engine.specs.Fill.{ValidAgents};
ghost use Rattle.engine.specs.Level.{Away};
ghost use Rattle.engine.specs.Divide.{AllShares, Targets, Divided};

use super::fill::fill;
use super::level::level;
use super::share::{Shared, share_of};
use exchange::Agents;
use holding::Holding;

// All that a sheet needs: who holds what, the set that bounds the total, and each agent's share with its certificates.
#[derive(Clone, Copy)]
pub struct Division {
    pub holding: Holding,
    pub bound: u64,
    pub shares: [Shared; 12],
}

// The share of each agent that is present, among those present.
// Kept (point 1): `AllShares` says 0 of an agent that is away, as its page on the sheet does (note 2).
fn all_shares(s: Agents, here: u64) -> [Shared; 12]
    requires { ValidAgents s }
    ensures { AllShares s (bit here) s.n result }
{
    let p = sets::size_below(s.n, here);
    let none = Shared {
        share: 0,
        bound: 0,
        part: [0u8; 64],
    };
    let mut shares = [none; 12];
    for (t, v) in s.valuations[..s.n].iter().enumerate() {
        if sets::member(here, t) {
            let one = share_of(*v, s.m, p);
            shares[t] = one;
        }
    }
    shares
}

// The shares of n agents as a table of targets.
fn targets_of(shares: [Shared; 12], n: usize) -> [u8; 12]
    requires { n ≤ 12 }
    ensures { Targets shares n result }
{
    let mut targets = [0u8; 12];
    for (t, one) in shares[..n].iter().enumerate() {
        targets[t] = one.share;
    }
    targets
}

// The division among agents of which those in `here` are present. Every agent is offered its share first, so that few are short when the total
// is greatest.
pub fn divide(s: Agents, here: u64) -> Division
    requires { ValidAgents s × Away s (bit here) }
    ensures { Divided s (bit here) result }
{
    let shares = all_shares(s, here);
    let targets = targets_of(shares, s.n);
    let f = fill(s, targets);
    let holding = level(s, f.holding);
    Division {
        holding,
        bound: f.bound,
        shares,
    }
}
