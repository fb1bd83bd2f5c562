// Build: writes a sheet that Check accepts.
#![tactic(auto)]

ghost use Rattle.std.specs.Prelude.{◌≡◌};
ghost use Rattle.builder.specs.Build.{build_answer, Answered, BuildTold};

use command::refusal::{Refusal, refuse};
use exchange::Agents;

pub mod write;

// Builds a sheet for a plan at the start of a lent buffer, and answers how many bytes it has.
pub fn build(plan: &[u8], buffer: &mut [u8]) -> Result<usize, Refusal>
    ensures answer { result ≡ build_answer plan.now buffer.old }
    ensures bytes { Answered plan.now buffer.old buffer.new result }
    ensures told { BuildTold plan.now buffer.old result }
{
    let r = plan::read(plan);
    r.accepted()?;
    let long = sheet::length(r.m, r.n);
    if buffer.len() < long {
        return refuse(10, long);
    }
    let valuations = plan::valuations_of(r);
    let agents = Agents {
        m: r.m,
        n: r.n,
        valuations,
    };
    let d = engine::divide::divide(agents, plan::present_of(r));
    let h = d.holding;
    let total = h.total() as u8;
    write::write_sheet(buffer, r.m, r.n, total, d);
    Ok(long)
}
