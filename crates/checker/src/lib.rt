// Check and Page: a sheet is accepted exactly by the rules, and what an accepted sheet states is true.
#![tactic(auto)]

ghost use Rattle.std.specs.Prelude.{◌≡◌, ◌≤◌, length};
ghost use Rattle.command.specs.Refusal.{refuse};
ghost use Rattle.sets.specs.Bits.{bit};
ghost use Rattle.plan.specs.Teams.{present};
ghost use Rattle.plan.specs.Valid.{Valid};
ghost use Rattle.sheet.specs.Layout.{length_of};
ghost use Rattle.checker.specs.Verdict.{Accepted, verdict_number, verdict_place};
ghost use Rattle.command.specs.Rule.{first_broken};
ghost use Rattle.checker.specs.Check.{division_rules, verdict_of, check_sheet};
ghost use Rattle.checker.specs.Told.{CheckTold};
ghost use Rattle.checker.specs.Fair.{Fair};
ghost use Rattle.checker.specs.Page.{stretch_of, page_of};

use command::refusal::{Refusal, refuse};
use plan::Reading;

mod division;
mod shares;

// The paper's number of a verdict: a refusal's own, and 0 for acceptance.
// Kept (points 1, 2): `verdict_number` and `verdict_place` say 0 of an accepted sheet; number and place are the two fields of a refusal.
pub fn number(v: Result<(), Refusal>) -> usize
    ensures { result ≡ verdict_number v }
{
    match v {
        Ok(()) => 0,
        Err(refusal) => refusal.number,
    }
}

// The place of a refusal, and 0 for acceptance.
pub fn place(v: Result<(), Refusal>) -> usize
    ensures { result ≡ verdict_place v }
{
    match v {
        Ok(()) => 0,
        Err(refusal) => refusal.place,
    }
}

// The rules about the division and the shares, 13 to 16, on a sheet of the right form. The teams in `here` are present.
fn weigh(r: Reading, here: u64, sheet: &[u8]) -> Result<(), Refusal>
    requires { Valid r × (length_of r.m r.n ≤ length sheet.now) × (bit here ≡ present r) }
    ensures { result ≡ first_broken Accepted (division_rules refuse r sheet.now) }
{
    let m = r.m;
    let n = r.n;
    let valuations = plan::valuations_of(r);
    let start = sheet::give_start(0);
    let end = sheet::bound_start(m);
    let bundles = sheet::words(&sheet[start..end], m);
    if let Some(t) = division::first_dependent(valuations, m, n, bundles) {
        return refuse(13, t);
    }
    let total = sets::wide(sheet[3]);
    if total != division::given(bundles, n) {
        return refuse(14, 0);
    }
    if total != division::bound(valuations, m, n, sheet::word_at(sheet, end + 1)) {
        return refuse(14, 0);
    }
    if let Some(t) = shares::first_wrong(valuations, m, n, here, sheet) {
        return refuse(15, t);
    }
    if let Some(t) = shares::first_short(bundles, m, n, sheet) {
        return refuse(16, t);
    }
    Ok(())
}

// All rules, by a plan that is read.
fn judge(r: Reading, sheet: &[u8]) -> Result<(), Refusal>
    requires { r.refusal ≡ 0 → Valid r }
    ensures { result ≡ verdict_of r sheet.now }
{
    r.accepted()?;
    let long = sheet::length(r.m, r.n);
    if sheet.len() != long {
        return refuse(11, 0);
    }
    let here = plan::present_of(r);
    let fault = sheet::form::first_fault(sheet, r.m, r.n, here);
    if fault < long {
        return refuse(12, fault);
    }
    weigh(r, here, sheet)
}

// Checks a sheet by a plan.
pub fn check(plan: &[u8], sheet: &[u8]) -> Result<(), Refusal>
    ensures verdict { result ≡ check_sheet plan.now sheet.now }
    ensures fair { result ≡ Accepted → Fair plan.now sheet.now }
    ensures told { CheckTold plan.now sheet.now result }
{
    judge(plan::read(plan), sheet)
}

// Where a page stands in its sheet: `start` is its first byte, `end` the one after its last.
// Kept (point 1): it is the start and end that a C caller gets from pool_page, 0 for none (clause result ≡ stretch_of ..), not an Option.
#[derive(Clone, Copy)]
pub struct Stretch {
    pub start: usize,
    pub end: usize,
}

// Where a team's SHARE and PARTs stand in an accepted sheet, and else the empty stretch at 0.
pub fn page_stretch(plan: &[u8], sheet: &[u8], team: usize) -> Stretch
    ensures { result ≡ stretch_of plan.now sheet.now team }
{
    let r = plan::read(plan);
    if team < r.n && judge(r, sheet).is_ok() {
        let start = sheet::share_start(r.m, team);
        let end = start + 11 + 3 * r.m;
        return Stretch { start, end };
    }
    Stretch { start: 0, end: 0 }
}

// A team's SHARE and PARTs, as a part of an accepted sheet, and else an empty part.
pub fn page<'a>(plan: &[u8], sheet: &'a [u8], team: usize) -> &'a [u8]
    ensures { result.now ≡ page_of plan.now sheet.now team }
{
    let s = page_stretch(plan, sheet, team);
    let start = s.start;
    let end = s.end;
    &sheet[start..end]
}
