// One command of a plan file: what stands at an offset, and the reader that hands one out after another.
#![tactic(auto)]

pub mod decode;
pub mod reader;
pub mod refusal;

// What stands at an offset of the file.
// Kept (point 1): the first three say why there is no command; `command_at` and `fault` speak of all of these alike.
#[derive(Clone, Copy, PartialEq, Eq)]
pub enum Command {
    // The file ends here.
    Missing,
    // The byte is no command's.
    Unknown,
    // The file ends before the command's last operand.
    Short,
    Start(u8, u8),
    Caps(u8),
    Loops(u8),
    Mounts(u8),
    Class(u8, u8),
    Put(u8, u8),
    Span(u8, u8, u8),
    Fit(u8, u8, u8, u8, u8),
    Shelf(u8, u8, u8, u8, u8),
    Days(u8, u8, u8, u8),
    Glue(u8),
    End,
}

// What has been read besides the teams: the count of instruments, the count of teams, and which classes of the open team are capped.
#[derive(Clone, Copy)]
pub struct State {
    pub m: usize,
    pub n: usize,
    pub capped: [bool; 16],
}
