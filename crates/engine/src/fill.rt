// Fill: from the greedy start, chains from any agent to the pool, until none is left or what is in the pool is worth nothing.
ghost use Rattle.std.specs.Prelude.{◌≡◌, true};
ghost use Rattle.engine.specs.Fill.{ValidAgents, Worthless, Full};

use super::greedy::greedy;
use exchange::Agents;
use exchange::chains::moves_back;
use exchange::search::search;
use holding::Holding;

// A holding of greatest total, and the set that bounds every total.
#[derive(Clone, Copy)]
pub struct Filled {
    pub holding: Holding,
    pub bound: u64,
}

// Whether a set is worth nothing to every agent.
fn worthless(s: Agents, set: u64) -> bool
    requires { ValidAgents s }
    ensures { result ≡ true → Worthless s set }
{
    set == 0
        || s.valuations[..s.n]
            .iter()
            .all(|v| kinds::worth_of(*v, s.m, set) == 0)
}

// A holding of greatest total among the agents, with its certificate, measured against the quotas. They decide nothing but the start.
pub fn fill(s: Agents, quotas: [u8; 12]) -> Filled
    requires { ValidAgents s }
    ensures { Full s result.holding result.bound × (result.holding.shares ≡ quotas) }
{
    let sources = sets::all_below(s.n);
    let mut h = greedy(s, quotas);
    loop {
        let pool = h.pool();
        if worthless(s, pool) {
            return Filled {
                holding: h,
                bound: pool,
            };
        }
        let r = search(s, h.owner, h.bundles(), sources, pool);
        let Some(end) = r.end else {
            let bound = sets::minus(sets::all_below(s.m), r.trace.seen);
            return Filled { holding: h, bound };
        };
        h = h.chain(moves_back(r.trace, end));
    }
}
