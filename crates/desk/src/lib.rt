// The desk interface: every operation on byte buffers, answering one number. The crate desk_c exports it to programs in other languages.
#![tactic(auto)]

ghost use Rattle.std.specs.Prelude.{◌≡◌, ◌≤◌, ◌<◌};
ghost use Rattle.command.specs.Refusal.{number_of, place_of};
ghost use Rattle.builder.specs.Build.{build_answer, Answered};
ghost use Rattle.checker.specs.Check.{check_sheet};
ghost use Rattle.listing.specs.List.{list_answer, list_bytes};
ghost use Rattle.checker.specs.Page.{stretch_of};
ghost use Rattle.plan.specs.Worth.{worth_answer};
ghost use Rattle.desk.specs.Desk.{desk_built, desk_verdict, desk_worth, desk_page};

use command::refusal::Refusal;

// The one number of an answer: what is answered, or 65,536 × the refusal's number + its place.
// Kept (point 4): the number that a C caller is answered, as `desk_built` says it.
fn number_for_c(answer: Result<usize, Refusal>) -> u64
    requires { (number_of answer ≤ 18) × (place_of answer < 65536) }
    ensures { result ≡ desk_built answer }
{
    match answer {
        Ok(value) => value as u64,
        Err(Refusal { number, place }) => 65536 * (number as u64) + (place as u64),
    }
}

// Worth: what a set is worth to a team, or 65,536 × the refusal's number + its place.
pub fn pool_worth(plan: &[u8], team: usize, set: u64) -> u64
    ensures { result ≡ desk_worth (worth_answer plan.now team set) }
{
    number_for_c(plan::worth(plan, team, set))
}

// Build: the sheet's length, or 65,536 × the refusal's number + its place.
pub fn pool_build(plan: &[u8], buffer: &mut [u8]) -> u64
    ensures answer { result ≡ desk_built (build_answer plan.now buffer.old) }
    ensures bytes { Answered plan.now buffer.old buffer.new (build_answer plan.now buffer.old) }
{
    number_for_c(builder::build(plan, buffer))
}

// Check: 0, or 65,536 × the refusal's number + its place.
pub fn pool_check(plan: &[u8], sheet: &[u8]) -> u64
    ensures { result ≡ desk_verdict (check_sheet plan.now sheet.now) }
{
    number_for_c(checker::check(plan, sheet).and(Ok(0)))
}

// Page: 65,536 × the length + the offset of a team's page in the sheet, or 0 for the empty page.
// Kept (points 1, 4): the number that a C caller is answered, as `desk_page` says it.
pub fn pool_page(plan: &[u8], sheet: &[u8], team: usize) -> u64
    ensures { result ≡ desk_page (stretch_of plan.now sheet.now team) }
{
    let s = checker::page_stretch(plan, sheet, team);
    65536 * ((s.end - s.start) as u64) + (s.start as u64)
}

// The weekly listing of a sheet: its length, or 65,536 × the refusal's number + its place.
pub fn pool_list(plan: &[u8], sheet: &[u8], buffer: &mut [u8]) -> u64
    ensures answer { result ≡ desk_built (list_answer plan.now sheet.now buffer.old) }
    ensures bytes { buffer.new ≡ list_bytes plan.now sheet.now buffer.old }
{
    number_for_c(listing::list(plan, sheet, buffer))
}
