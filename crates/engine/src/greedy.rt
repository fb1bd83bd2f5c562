// A start for fill: the agents in turn are offered what is in the pool.
ghost use Rattle.std.specs.Prelude.{◌≤◌, ◌≡◌, get_or};
ghost use Rattle.matroid.specs.Set.{size};
ghost use Rattle.sets.specs.Bits.{bit};
ghost use Rattle.holding.specs.Count.{table};
ghost use Rattle.exchange.specs.Agents.{Held};
ghost use Rattle.engine.specs.Fill.{ValidAgents};
ghost use Rattle.engine.specs.Offer.{Offered};

use exchange::Agents;
use holding::Holding;

// Who holds what between two turns, as a table, a word for each bundle and one for the pool, and how many instruments each agent may take in the
// next round.
#[derive(Clone, Copy)]
pub struct Offer {
    pub owner: [u8; 64],
    pub bundles: [u64; 12],
    pub pool: u64,
    pub quotas: [u8; 12],
}

// Each agent in turn is offered the pool, to take its quota or fewer: every bundle stays independent. Who took as many may go on up to `most` in
// the next round; who took fewer can take nothing more.
fn round(s: Agents, start: Offer, most: u8) -> Offer
    requires { Offered s start.owner start.bundles start.pool }
    ensures { Offered s result.owner result.bundles result.pool }
{
    let mut pool = start.pool;
    if pool == 0 {
        return start;
    }
    let mut bundles = start.bundles;
    let mut owner = start.owner;
    let mut next = [0u8; 12];
    for (t, v) in s.valuations[..s.n].iter().enumerate() {
        let bundle = bundles[t];
        let quota = start.quotas[t];
        let larger = kinds::grown(*v, s.m, bundle, pool, sets::wide(quota));
        let fresh = sets::minus(larger, bundle);
        sets::assign(&mut owner, fresh, t as u8);
        bundles[t] = larger;
        pool = sets::minus(pool, fresh);
        if quota < most && sets::size(fresh) >= sets::wide(quota) {
            next[t] = most - quota;
        }
    }
    Offer {
        owner,
        bundles,
        pool,
        quotas: next,
    }
}

// The sizes of the bundles of n agents.
fn sizes_of(bundles: [u64; 12], n: usize) -> [u8; 12]
    requires { n ≤ 12 }
    ensures { result ≡ table n (λ t. size 64 (bit (get_or bundles t 0))) }
{
    let mut sizes = [0u8; 12];
    for (t, bundle) in bundles[..n].iter().enumerate() {
        sizes[t] = sets::size(*bundle) as u8;
    }
    sizes
}

// A holding of the agents in which every bundle is independent, measured against the quotas: each takes its quota, then up to an even part of all
// instruments, then what it can. It is a start: how much they hold is no part of the promise.
pub fn greedy(s: Agents, quotas: [u8; 12]) -> Holding
    requires { ValidAgents s }
    ensures { Held s result × (result.shares ≡ quotas) }
{
    let start = Offer {
        owner: [255u8; 64],
        bundles: [0u64; 12],
        pool: sets::all_below(s.m),
        quotas,
    };
    let even = (s.m / s.n + 1) as u8;
    let first = round(s, start, even);
    let second = round(s, first, 64);
    let third = round(s, second, 0);
    let sizes = sizes_of(third.bundles, s.n);
    Holding::of(s.m, s.n, third.owner, quotas, sizes)
}
