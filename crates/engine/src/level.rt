// Level: chains from each short agent to an agent above its share, until nobody is short.
ghost use Rattle.std.specs.Prelude.{◌≤◌};
ghost use Rattle.engine.specs.Level.{FirstShort, Above, Levellable, Levelled};

use exchange::Agents;
use exchange::chains::moves_back;
use exchange::search::search;
use holding::Holding;

// The lowest of n agents that holds fewer than its share.
fn first_short(sizes: [u8; 12], shares: [u8; 12], n: usize) -> Option<usize>
    requires { n ≤ 12 }
    ensures { FirstShort sizes shares n result }
{
    sizes[..n]
        .iter()
        .zip(&shares[..n])
        .position(|(size, share)| size < share)
}

// The instruments of the agents that hold more than their shares.
fn above(sizes: [u8; 12], shares: [u8; 12], bundles: [u64; 12], n: usize) -> u64
    requires { n ≤ 12 }
    ensures { Above sizes shares bundles n result }
{
    let mut rich: u64 = 0;
    for (t, bundle) in bundles[..n].iter().enumerate() {
        if shares[t] < sizes[t] {
            rich = sets::either(rich, *bundle);
        }
    }
    rich
}

// A holding of the same total in which every agent has the share it is measured against.
pub fn level(s: Agents, start: Holding) -> Holding
    requires { Levellable s start }
    ensures { Levelled s start result }
{
    let mut h = start;
    loop {
        if h.shortfall == 0 {
            return h;
        }
        let Some(i) = first_short(h.sizes, h.shares, s.n) else {
            return h;
        };
        let bundles = h.bundles();
        let rich = above(h.sizes, h.shares, bundles, s.n);
        let r = search(s, h.owner, bundles, sets::only(i), rich);
        let Some(end) = r.end else {
            return h;
        };
        h = h.chain(moves_back(r.trace, end));
    }
}
