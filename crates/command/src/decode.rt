// What stands at an offset of a plan file.
ghost use Rattle.std.specs.Prelude.{◌≡◌, ◌+◌, ◌≤◌, length, get_or};
ghost use Rattle.command.specs.Command.{width_of, command_by, command_at, bytes_of, found_at};

use super::Command;

// The byte at an offset, and 0 past the end.
// Kept (point 1): the clause says 0 past the end, and `read_plan` tests the first byte so.
pub fn byte_at(file: &[u8], at: usize) -> u8
    ensures { result ≡ get_or file.now at 0 }
{
    file.get(at).copied().unwrap_or(0)
}

// How many bytes the command of a byte has, operands included, and 0 for a byte that is no command's.
// Kept (point 1): a byte of the file is a number, of which `Command` is the enum; `command_at` says 0 of one that is no command's.
fn width_of(byte: u8) -> usize
    ensures { result ≡ width_of byte }
{
    match byte {
        1 => 3,
        2 => 2,
        3 => 2,
        4 => 3,
        5 => 3,
        6 => 4,
        7 => 1,
        8 => 2,
        9 => 6,
        10 => 6,
        11 => 5,
        12 => 2,
        _ => 0,
    }
}

// The command of a byte, with the operands that stand after an offset.
fn command_of(file: &[u8], at: usize, byte: u8) -> Command
    requires { at + width_of byte ≤ length file.now }
    ensures { result ≡ command_by file.now at byte }
{
    match byte {
        1 => Command::Start(file[at + 1], file[at + 2]),
        2 => Command::Caps(file[at + 1]),
        3 => Command::Loops(file[at + 1]),
        4 => Command::Class(file[at + 1], file[at + 2]),
        5 => Command::Put(file[at + 1], file[at + 2]),
        6 => Command::Span(file[at + 1], file[at + 2], file[at + 3]),
        8 => Command::Mounts(file[at + 1]),
        9 => Command::Fit(
            file[at + 1],
            file[at + 2],
            file[at + 3],
            file[at + 4],
            file[at + 5],
        ),
        10 => Command::Shelf(
            file[at + 1],
            file[at + 2],
            file[at + 3],
            file[at + 4],
            file[at + 5],
        ),
        11 => Command::Days(file[at + 1], file[at + 2], file[at + 3], file[at + 4]),
        12 => Command::Glue(file[at + 1]),
        _ => Command::End,
    }
}

// The command at an offset of the file.
pub fn command_at(file: &[u8], at: usize) -> Command
    ensures { result ≡ command_at file.now at }
{
    if file.len() <= at {
        return Command::Missing;
    }
    let byte = file[at];
    let w = width_of(byte);
    if w == 0 {
        return Command::Unknown;
    }
    if file.len() - at < w {
        return Command::Short;
    }
    command_of(file, at, byte)
}

// How many bytes a command has.
// Kept (point 1): `bytes_of` says 0 where there is no command.
pub fn width(command: Command) -> usize
    ensures { result ≡ bytes_of command }
{
    match command {
        Command::Missing | Command::Unknown | Command::Short => 0,
        Command::End => 1,
        Command::Caps(_) | Command::Loops(_) | Command::Mounts(_) | Command::Glue(_) => 2,
        Command::Start(..) | Command::Class(..) | Command::Put(..) => 3,
        Command::Span(..) => 4,
        Command::Days(..) => 5,
        Command::Fit(..) | Command::Shelf(..) => 6,
    }
}

// A command, and the offset after it.
#[derive(Clone, Copy)]
pub struct Found {
    pub command: Command,
    pub end: usize,
}

// The command at an offset of the file, with the offset after it.
pub fn found_at(file: &[u8], at: usize) -> Found
    ensures { result ≡ found_at file.now at }
{
    let command = command_at(file, at);
    Found {
        command,
        end: at + width(command),
    }
}
