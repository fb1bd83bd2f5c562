// The functions for C callers: "a refusal is 65,536 × its number + its place".
ghost use Rattle.demands.specs.Desk.{DeskBuilds, DeskLists, DeskChecks, DeskValues, DeskPages};
ghost use Rattle.demands.specs.Three.{Writes};

// Build.
pub fn build(file: &[u8], buffer: &mut [u8]) -> u64
    ensures one { DeskBuilds file.now buffer.old buffer.new result }
    ensures three { Writes file.now buffer.old buffer.new }
{
    desk::pool_build(file, buffer)
}

// The listing of a sheet.
pub fn list(file: &[u8], sheet: &[u8], buffer: &mut [u8]) -> u64
    ensures { DeskLists file.now sheet.now buffer.old buffer.new result }
{
    desk::pool_list(file, sheet, buffer)
}

// Check.
pub fn check(file: &[u8], sheet: &[u8]) -> u64
    ensures { DeskChecks file.now sheet.now result }
{
    desk::pool_check(file, sheet)
}

// Worth.
pub fn worth(file: &[u8], team: usize, set: u64) -> u64
    ensures { DeskValues file.now team set result }
{
    desk::pool_worth(file, team, set)
}

// Page.
pub fn page(file: &[u8], sheet: &[u8], team: usize) -> u64
    ensures { DeskPages file.now sheet.now team result }
{
    desk::pool_page(file, sheet, team)
}
