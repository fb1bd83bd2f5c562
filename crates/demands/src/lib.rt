// The three demands as promises of callers: each function calls an operation on any bytes, asks nothing, and promises what the demands say. Only
// those of `holdings` ask something: note 7 wants them called where sizes and shortfall are right.
#![tactic(auto)]

ghost use Rattle.std.specs.Prelude.{◌≡◌, Ok};
ghost use Rattle.plan.specs.Worth.{worth_number, worth_place, worth_value};
ghost use Rattle.checker.specs.Verdict.{Accepted, verdict_number, verdict_place};
ghost use Rattle.checker.specs.Check.{check_place};
ghost use Rattle.builder.specs.Build.{built_number, built_place, built_length};
ghost use Rattle.demands.specs.One.{Builds, Checks, Reads};
ghost use Rattle.demands.specs.Two.{Values, Accepts};
ghost use Rattle.demands.specs.Three.{Good, Writes, Agrees};
ghost use Rattle.demands.specs.Pages.{Pages};

use command::refusal::Refusal;
use plan::Reading;

pub mod desks;
pub mod holdings;
pub mod listings;

// Read: the reading of the plan, and how large its numbers are.
pub fn read(file: &[u8]) -> Reading
    ensures { Reads file.now result }
{
    plan::read(file)
}

// Worth: the rank of the set, or Read's refusal.
pub fn worth(file: &[u8], team: usize, set: u64) -> Result<usize, Refusal>
    ensures two { Values file.now team set (worth_number result) (worth_place result) (worth_value result) }
    ensures case { worth_number result ≡ 0 → result ≡ Ok (worth_value result) }
{
    plan::worth(file, team, set)
}

// Build: who is refused, and what is written.
pub fn build(file: &[u8], buffer: &mut [u8]) -> Result<usize, Refusal>
    ensures one { Builds file.now buffer.old buffer.new (built_number result) (built_place result) (built_length result) }
    ensures three { Writes file.now buffer.old buffer.new }
    ensures case { built_number result ≡ 0 → result ≡ Ok (built_length result) }
{
    builder::build(file, buffer)
}

// Check: which rule is the first that is broken, exactly what is accepted, and what an accepted sheet means.
pub fn check(file: &[u8], sheet: &[u8]) -> Result<(), Refusal>
    ensures one { Checks file.now sheet.now (verdict_number result) (verdict_place result) }
    ensures two { Accepts file.now sheet.now (verdict_number result) }
    ensures three { verdict_number result ≡ 0 → Good file.now sheet.now }
    ensures case { verdict_number result ≡ 0 → result ≡ Accepted }
{
    checker::check(file, sheet)
}

// Build and then Check of what it wrote: the number that Check answers, or Build's refusal.
pub fn build_and_check(file: &[u8], buffer: &mut [u8]) -> usize
    ensures { Agrees file.now buffer.old result }
{
    match builder::build(file, buffer) {
        Ok(long) => checker::number(checker::check(file, &buffer[..long])),
        Err(refusal) => refusal.number,
    }
}

// The place of Check's refusal.
pub fn check_place(file: &[u8], sheet: &[u8]) -> usize
    ensures { result ≡ check_place file.now sheet.now }
{
    checker::place(checker::check(file, sheet))
}

// Page: a team's page of a sheet of which the rules hold, and nothing else.
pub fn page<'a>(file: &[u8], sheet: &'a [u8], team: usize) -> &'a [u8]
    ensures { Pages file.now sheet.now team result.now }
{
    checker::page(file, sheet, team)
}
