// The exchange graph of agents, each with a valuation: breadth-first search over exchanges, and the chain back from its end.
#![tactic(auto)]

use kinds::Valuation;

pub mod chains;
pub mod search;

// Who takes part: n agents among m instruments, each with its own valuation.
#[derive(Clone, Copy)]
pub struct Agents {
    pub m: usize,
    pub n: usize,
    pub valuations: [Valuation; 12],
}
