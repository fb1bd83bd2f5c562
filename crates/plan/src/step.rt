// Reading, one command at a time. A table of fourteen rows has the pool's in row 0, that of the team opened n-th in row n, and that of the glued
// instruments in row 13, so that a command changes its row where it stands.
ghost use Rattle.std.specs.Prelude.{◌≡◌, ◌≤◌, length};
ghost use Rattle.plan.specs.Progress.{Followed};

use command::refusal::Refusal;
use command::{Command, State};

// How many bytes the table of fourteen rows has: 4,802.
pub const TABLE: usize = 14 * row::WIDTH;

// An END in its place: its offset, and what has been read before it besides the teams.
#[derive(Clone, Copy)]
pub struct Ending {
    pub at: usize,
    pub s: State,
}

// Follows a command at an offset: it breaks a rule, it is an END in its place (None), or it is carried out and leaves a state.
pub fn follow(
    rows: &mut [u8],
    s: State,
    at: usize,
    command: Command,
) -> Result<Option<State>, Refusal>
    requires { (length rows.old ≡ 4802) × (s.n ≤ 12) }
    ensures { Followed rows.old at s command result rows.new }
{
    let start = row::WIDTH * carry::row_of(s.n, command);
    let found = judge::fault_of(&rows[start..start + row::WIDTH], at, s, command);
    if let Err(fault) = found {
        let number = fault.into();
        return Err(Refusal { number, place: at });
    }
    if judge::is_end(command) {
        return Ok(None);
    }
    let next = carry::changed_state(s, command);
    let start = row::WIDTH * carry::row_of(next.n, command);
    carry::change(&mut rows[start..start + row::WIDTH], next.n, command);
    Ok(Some(next))
}
