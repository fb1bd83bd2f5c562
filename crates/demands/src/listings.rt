// The weekly listing: of a sheet, and of a plan.
ghost use Rattle.builder.specs.Build.{built_number, built_place, built_length};
ghost use Rattle.demands.specs.Listings.{Lists, Lines, Prints};

use command::refusal::Refusal;

// Of a sheet that Check accepts.
pub fn list(file: &[u8], sheet: &[u8], buffer: &mut [u8]) -> Result<usize, Refusal>
    ensures { Lists file.now sheet.now buffer.old buffer.new (built_number result) (built_place result) (built_length result) }
{
    listing::list(file, sheet, buffer)
}

// The line of a refusal.
pub fn refusal(number: usize, place: usize, buffer: &mut [u8]) -> Result<usize, Refusal>
    ensures { Lines number place buffer.old buffer.new (built_number result) (built_place result) (built_length result) }
{
    listing::refusal(number, place, buffer)
}

// Of a plan: what `divide` prints.
pub fn week(file: &[u8], buffer: &mut [u8]) -> Result<usize, Refusal>
    ensures { Prints file.now buffer.old buffer.new (built_number result) (built_length result) }
{
    listing::week(file, buffer)
}
