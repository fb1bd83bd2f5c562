// The engine: from agents, each with a valuation, to a division of greatest total in which nobody is short, with certificates.
// Kept (point 5): `ValidAgents` stands in each contract, as `Ready` does in `exchange`.
#![tactic(auto)]

pub mod deal;
pub mod divide;
pub mod fill;
pub mod greedy;
pub mod level;
pub mod share;
