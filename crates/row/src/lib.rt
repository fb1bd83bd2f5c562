// A team as a row of 343 bytes, so that a command changes the open team where it stands: its kind, its channels, the cap of each class, then
// five tables over the instruments: the byte of the command that names one, and the four operands of that command after the instrument; last
// the byte of the command that says its days and the four bytes of these. The pool has such a row too, in which SHELFs name the instruments, and so have
// the glued instruments, where the byte is the number of the team, counted from 1.
#![tactic(auto)]

ghost use Rattle.std.specs.Prelude.{◌≡◌, ◌+◌, ◌≤◌, ◌<◌, length};
ghost use Rattle.team.specs.Team.{opened_team};
ghost use Rattle.row.specs.Row.{part, row_team};
ghost use Rattle.row.specs.Days.{days_of, shelf_of};

use days::Days;
use team::Team;

// How many bytes a row has.
pub const WIDTH: usize = 343;

// Where the caps of the classes begin.
pub const CAP: usize = 2;

// Where the bytes of the commands that name the instruments begin.
pub const NAMED: usize = 18;

// Where the first operands after the instrument begin.
pub const FIRST: usize = 82;

// Where the second operands begin.
pub const SECOND: usize = 146;

// Where the third operands begin.
pub const THIRD: usize = 210;

// Where the fourth operands begin.
pub const FOURTH: usize = 274;

// Where the byte of the command that says the days stands, and after it the bytes of the days.
pub const DAYS: usize = 338;

// A team that has just been opened, with one cap for each class.
pub fn open(row: &mut [u8], kind: u8, channels: u8, cap: u8)
    requires { length row.old ≡ 343 }
    ensures { row_team row.new ≡ opened_team kind channels cap }
{
    row[0] = kind;
    row[1] = channels;
    row[CAP..NAMED].fill(cap);
    row[NAMED..WIDTH].fill(255);
}

// The N bytes at an offset of a row.
#[tactic(auto, unfolding(crate::specs::Row::part))]
fn bytes<const N: usize>(row: &[u8], at: usize) -> [u8; N]
    requires { at + N ≤ length row.now }
    ensures { result ≡ part row.now at N }
{
    let mut bytes = [0u8; N];
    bytes.copy_from_slice(&row[at..at + N]);
    bytes
}

// The bytes of the commands that name the instruments in a row; in the row of the glued ones, their teams.
#[tactic(auto, unfolding(crate::specs::Row::row_team))]
pub fn names(row: &[u8]) -> [u8; 64]
    requires { length row.now ≡ 343 }
    ensures { result ≡ (row_team row.now).named }
{
    bytes(row, NAMED)
}

// The team of a row.
pub fn team(row: &[u8]) -> Team
    requires { length row.now ≡ 343 }
    ensures { result ≡ row_team row.now }
{
    Team {
        kind: row[0],
        channels: row[1],
        cap: bytes(row, CAP),
        named: bytes(row, NAMED),
        first: bytes(row, FIRST),
        second: bytes(row, SECOND),
        third: bytes(row, THIRD),
        fourth: bytes(row, FOURTH),
        days: bytes(row, DAYS),
    }
}

// The days of the team of a row.
pub fn days(row: &[u8]) -> Days
    requires { length row.now ≡ 343 }
    ensures { result ≡ days_of (row_team row.now) }
{
    days::given(
        row[DAYS],
        row[DAYS + 1],
        row[DAYS + 2],
        row[DAYS + 3],
        row[DAYS + 4],
    )
}

// The shelf days of an instrument, by the row of the pool.
pub fn shelf(row: &[u8], i: usize) -> Days
    requires { (length row.now ≡ 343) × (i < 64) }
    ensures { result ≡ shelf_of (row_team row.now) i }
{
    days::given(
        row[NAMED + i],
        row[FIRST + i],
        row[SECOND + i],
        row[THIRD + i],
        row[FOURTH + i],
    )
}
