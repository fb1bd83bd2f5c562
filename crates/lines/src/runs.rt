// Numbers in a row that go with one byte, written as `number=byte`, or `first-last=byte` where there are several.
ghost use Rattle.std.specs.Prelude.{◌≤◌, ◌<◌, ◌↔◌, IsTrue};

use std::{fmt, io};

// The first and the last number, and the byte that all of them go with.
#[derive(Clone, Copy, PartialEq, Eq)]
pub struct Run {
    pub first: usize,
    pub last: usize,
    pub byte: u8,
}

impl Run {
    // The run that a word writes.
    pub fn read(word: &[u8]) -> Run
        ensures ordered { result.first ≤ result.last }
        ensures below { result.last < 1000000 }
    {
        let first = crate::number(word);
        let end = crate::number(crate::after(word, b'-'));
        Run {
            first,
            last: first.max(end),
            byte: crate::byte(crate::number(crate::after(word, b'='))),
        }
    }

    // Whether the run has a number.
    pub fn has(self, number: usize) -> bool
        ensures { IsTrue result ↔ ((self.first ≤ number) × (number ≤ self.last)) }
    {
        self.first <= number && number <= self.last
    }
}

impl fmt::Display for Run {
    fn fmt<W: fmt::Write>(&self, f: &mut fmt::Formatter<W>) -> fmt::Result {
        write!(f, "{}", self.first)?;
        if self.first < self.last {
            write!(f, "-{}", self.last)?;
        }
        write!(f, "={}", self.byte)
    }
}

// Shows the runs of equal bytes of a table, in which each byte goes with its index.
pub fn show_each<F: FnMut(Run) -> io::Result<()>>(table: &[u8], mut show: F) -> io::Result<()>
    requires { F.IsAlwaysCallable show }
{
    let mut first = 0;
    for (last, byte) in table.iter().enumerate() {
        if table.get(last + 1) != Some(byte) {
            show(Run {
                first,
                last,
                byte: *byte,
            })?;
            first = last + 1;
        }
    }
    Ok(())
}
