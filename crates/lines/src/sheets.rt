// Sheets that are made from the ones that Build writes.
ghost use Rattle.std.specs.Prelude.{slice_index};
ghost use Rattle.lines.specs.Given.{IsGiven};

// Names a team in the GIVE of each instrument, and 255 for the pool; HEAD says how many instruments there are.
pub fn give(sheet: &mut [u8; 2642], teams: &[u8; 64])
    ensures { IsGiven (slice_index sheet.old 1) teams.now 64 sheet.old sheet.new }
{
    let m = usize::from(sheet[1]);
    for (g, team) in teams.iter().enumerate() {
        if g < m {
            sheet[sheet::give_start(g) + 2] = *team;
        }
    }
}
