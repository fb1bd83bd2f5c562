// One team of a plan: its kind and its operands, as the plan file names them.
#![tactic(auto)]

ghost use Rattle.std.specs.Prelude.{◌≡◌};
ghost use Rattle.team.specs.Team.{blank_team};

pub use kind::{Kind, NoKind};

mod kind;

// How many joints there are: a SPAN names two of 0 to 39.
pub const JOINTS: usize = 40;

// A team's kind (the byte that opens it) and operands. 255 stands wherever the file names nothing.
// Kept (points 1, 6): a table for each operand, side by side, 255 for none, since the theorems on a reading (`Valid`, `changed_team`) and the tests name each.
#[derive(Clone, Copy)]
pub struct Team {
    // Kept (point 1): a byte, since a reading shows 255 here where the file names nothing (`blank_team`) and 0 where it is refused (`refused` of plan).
    pub kind: u8,
    pub channels: u8,
    // the cap of each class
    pub cap: [u8; 16],
    // the byte of the command that names each instrument: 05 PUT, 06 SPAN or 09 FIT
    pub named: [u8; 64],
    // the operands of that command after the instrument: PUT's class, SPAN's two joints, FIT's mounts (32 bits, low byte first)
    pub first: [u8; 64],
    pub second: [u8; 64],
    pub third: [u8; 64],
    pub fourth: [u8; 64],
    // the byte of the command that says its days, 0B DAYS, and that command's operands: from and to (16 bits each, low byte first)
    pub days: [u8; 5],
}

// A team of which the file names nothing.
pub fn blank() -> Team
    ensures { result ≡ blank_team }
{
    Team {
        kind: 255,
        channels: 255,
        cap: [255u8; 16],
        named: [255u8; 64],
        first: [255u8; 64],
        second: [255u8; 64],
        third: [255u8; 64],
        fourth: [255u8; 64],
        days: [255u8; 5],
    }
}
