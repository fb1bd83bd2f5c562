// A sheet on one line: the fields of the weekly listing, with semicolons between them, and what Check answers.
ghost use Rattle.std.specs.Prelude.{◌<◌, ◌≤◌};

use command::decode::byte_at;
use std::io;

// The instruments that a sheet gives to a team, or 255 for the pool, rising, each after a space.
fn holdings(rt: &impl Print, sheet: &[u8], m: usize, team: u8) -> io::Result<()>
    requires { m ≤ 64 }
{
    // Kept (point 3): a number that offsets of the sheet come from; there is no table to go over.
    for g in 0..m {
        if byte_at(sheet, sheet::give_start(g) + 2) == team {
            print!(rt; " {g}")?;
        }
    }
    Ok(())
}

// A team's share and what it holds.
fn team(rt: &impl Print, sheet: &[u8], m: usize, t: usize) -> io::Result<()>
    requires { (m ≤ 64) × (t < 12) }
{
    let share = byte_at(sheet, sheet::share_start(m, t) + 2);
    print!(rt; "; TEAM {t} SHARE {share} HOLDS")?;
    holdings(rt, sheet, m, t as u8)
}

// The total, the teams and the pool.
fn fields(rt: &impl Print, sheet: &[u8]) -> io::Result<()> {
    let m = usize::from(byte_at(sheet, 1)).min(64);
    let n = usize::from(byte_at(sheet, 2)).min(12);
    print!(rt; "TOTAL {}", byte_at(sheet, 3))?;
    // Kept (point 3): as in `holdings`.
    for t in 0..n {
        team(rt, sheet, m, t)?;
    }
    print!(rt; "; POOL")?;
    holdings(rt, sheet, m, 255)
}

// Shows what Check answers to a sheet by a plan.
pub fn judge(rt: &impl Print, plan: &[u8], sheet: &[u8]) -> io::Result<()> {
    match checker::check(plan, sheet) {
        Ok(()) => print!(rt; "ACCEPTED"),
        Err(refusal) => print!(rt; "{refusal}"),
    }
}

// Shows a sheet, and what Check answers to it by a plan.
pub fn show(rt: &impl Print, plan: &[u8], sheet: &[u8]) -> io::Result<()> {
    fields(rt, sheet)?;
    print!(rt; "; ")?;
    judge(rt, plan, sheet)
}
