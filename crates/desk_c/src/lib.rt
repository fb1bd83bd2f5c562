// The desk's operations under their C names. Each export calls the function of `desk` of that name and states its clauses.
#![tactic(auto)]

ghost use Rattle.std.specs.Prelude.{◌≡◌};
ghost use Rattle.builder.specs.Build.{build_answer, Answered};
ghost use Rattle.checker.specs.Check.{check_sheet};
ghost use Rattle.listing.specs.List.{list_answer, list_bytes};
ghost use Rattle.checker.specs.Page.{stretch_of};
ghost use Rattle.plan.specs.Worth.{worth_answer};
ghost use Rattle.desk.specs.Desk.{desk_built, desk_verdict, desk_worth, desk_page};

// Worth: what a set is worth to a team, or 65,536 × the refusal's number + its place.
#[unsafe(no_mangle)]
pub extern "C" fn pool_worth(plan: &[u8], team: usize, set: u64) -> u64
    ensures { result ≡ desk_worth (worth_answer plan.now team set) }
{
    desk::pool_worth(plan, team, set)
}

// Build: the sheet's length, or 65,536 × the refusal's number + its place.
#[unsafe(no_mangle)]
pub extern "C" fn pool_build(plan: &[u8], buffer: &mut [u8]) -> u64
    ensures answer { result ≡ desk_built (build_answer plan.now buffer.old) }
    ensures bytes { Answered plan.now buffer.old buffer.new (build_answer plan.now buffer.old) }
{
    desk::pool_build(plan, buffer)
}

// Check: 0, or 65,536 × the refusal's number + its place.
#[unsafe(no_mangle)]
pub extern "C" fn pool_check(plan: &[u8], sheet: &[u8]) -> u64
    ensures { result ≡ desk_verdict (check_sheet plan.now sheet.now) }
{
    desk::pool_check(plan, sheet)
}

// Page: 65,536 × the length + the offset of a team's page in the sheet, or 0 for the empty page.
#[unsafe(no_mangle)]
pub extern "C" fn pool_page(plan: &[u8], sheet: &[u8], team: usize) -> u64
    ensures { result ≡ desk_page (stretch_of plan.now sheet.now team) }
{
    desk::pool_page(plan, sheet, team)
}

// The weekly listing of a sheet: its length, or 65,536 × the refusal's number + its place.
#[unsafe(no_mangle)]
pub extern "C" fn pool_list(plan: &[u8], sheet: &[u8], buffer: &mut [u8]) -> u64
    ensures answer { result ≡ desk_built (list_answer plan.now sheet.now buffer.old) }
    ensures bytes { buffer.new ≡ list_bytes plan.now sheet.now buffer.old }
{
    desk::pool_list(plan, sheet, buffer)
}
