// The answers of a program to the lines of its input.
use crate::{input, pieces};
use std::io;
use std::io::Input;

// Whether a line is empty or a note.
fn is_note(line: &[u8]) -> bool {
    matches!(line, [] | [b'#', ..])
}

// Answers each line of a text: an empty line and a note come back as they are, and `answer` prints what stands for any other.
pub fn to_each<F: FnMut(&[u8]) -> io::Result<()>>(
    rt: &impl Print,
    text: &[u8],
    mut answer: F,
) -> io::Result<()>
    requires { F.IsAlwaysCallable answer }
{
    for line in pieces::of(text, b'\n') {
        if is_note(line) {
            rt.write_all(line)?;
            println!(rt)?;
        } else {
            answer(line)?;
        }
    }
    Ok(())
}

// The same for standard input, of which as much is read as a lent space has room for.
pub fn to_input<F: FnMut(&[u8]) -> io::Result<()>>(
    rt: &(impl Input + Print),
    space: &mut [u8],
    answer: F,
) -> io::Result<()>
    requires { F.IsAlwaysCallable answer }
{
    let n = input::read_full(rt, space)?;
    to_each(rt, &space[..n], answer)
}
