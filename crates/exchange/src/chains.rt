// From the end of a search back to its source: the moves of the chain.
ghost use Rattle.std.specs.Prelude.{◌<◌};
ghost use Rattle.exchange.specs.Chains.{Followed};

use super::search::Trace;
use holding::{Move, Moves};

// The moves of the chain that ends at an instrument: each goes to the agent that the trace names, back to one without a parent.
pub fn moves_back(trace: Trace, end: usize) -> Moves
    requires { end < 64 }
    ensures { Followed trace end result }
{
    let mut list = [Move { item: 0, to: 0 }; 64];
    let mut g = end;
    for (k, step) in list.iter_mut().enumerate() {
        *step = Move {
            item: g as u8,
            to: trace.to[g],
        };
        let p = trace.parent[g] as usize;
        if p >= 64 {
            return Moves { count: k + 1, list };
        }
        g = p;
    }
    Moves { count: 64, list }
}
