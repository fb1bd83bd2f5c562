// The verb `team HEX`: a count of instruments, a kind, a set of eight bytes, and then commands as a plan has them, with any operands.
ghost use Rattle.std.specs.Prelude.{◌+◌, ◌^◌, ◌<◌, ◌≤◌};

use crate::beside;
use crate::draw::Case;
use command::decode::{byte_at, command_at, width};
use kinds::Valuation;
use lines::bytes;
use std::{array, io};
use team::Team;

// The team that the commands from an offset on fill, by no rule but the tables' sizes.
fn filled(bytes: &[u8], from: usize) -> Team {
    let mut row = [255; row::WIDTH];
    let mut at = from;
    // Kept (point 3): each command says where the next one is, and the first that is none ends the walk.
    while at < bytes.len() {
        let command = command_at(bytes, at);
        let long = width(command).min(6);
        if long == 0 {
            break;
        }
        carry::change(&mut row, 1, command);
        at += long;
    }
    row::team(&row)
}

// The team of a kind that the commands from an offset on fill.
pub fn team(bytes: &[u8], from: usize) -> Team {
    let mut team = filled(bytes, from);
    team.kind = byte_at(bytes, 1);
    team
}

// The count of instruments: the first byte, and 64 where that is greater.
pub fn count(bytes: &[u8]) -> usize
    ensures { result ≤ 64 }
{
    usize::from(byte_at(bytes, 0)).min(64)
}

// The set of the eight bytes at an offset, low byte first.
pub fn set_at(bytes: &[u8], from: usize) -> u64
    requires { from + 7 < 2 ^ 64 }
{
    u64::from_le_bytes(array::from_fn(|k| byte_at(bytes, from + k)))
}

// Answers the verb. Every instrument below m is usable.
pub fn answer(rt: &impl Print, hex: &[u8]) -> io::Result<()> {
    let mut space = [0; 4096];
    let bytes = bytes::decoded(hex, &mut space);
    let m = count(bytes);
    let team = team(bytes, 10);
    let usable = sets::all_below(m);
    let case = Case {
        valuation: Valuation {
            team,
            usable,
            glued: 0,
        },
        m,
        set: set_at(bytes, 2),
        usable,
    };
    beside::show(rt, &team, &case)
}
