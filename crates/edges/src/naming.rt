// The command that names an instrument of a team: `instrument:class` for a PUT, `instrument:joint-joint` for a SPAN, and for a FIT
// `instrument:` and its four bytes of mounts in hexadecimal, as they stand in the file.
use lines::print::InHex;
use std::io;

// How many operands a naming command has after the instrument.
fn count(command: u8) -> usize {
    match command {
        5 => 1,
        6 => 2,
        9 => 4,
        _ => 0,
    }
}

// The operands of a command, and nothing where it is the filler.
fn show(rt: &impl Print, command: u8, operands: [u8; 4]) -> io::Result<()> {
    match command {
        5 => print!(rt; ":{}", operands[0]),
        6 => print!(rt; ":{}-{}", operands[0], operands[1]),
        9 => print!(rt; ":{}", InHex(&operands)),
        255 => Ok(()),
        _ => print!(rt; "?{command}"),
    }
}

// What names an instrument, and nothing where nothing does. A `!` marks an operand that the command does not have and that is not the filler.
pub fn instrument(
    rt: &impl Print,
    number: usize,
    command: u8,
    operands: [u8; 4],
) -> io::Result<()> {
    let rest = operands
        .iter()
        .skip(count(command))
        .all(|operand| *operand == 255);
    if command == 255 && rest {
        return Ok(());
    }
    print!(rt; " {number}")?;
    show(rt, command, operands)?;
    if !rest {
        print!(rt; "!")?;
    }
    Ok(())
}
