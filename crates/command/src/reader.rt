// The reader of a plan: it hands out the commands one after another.
ghost use Rattle.std.specs.Prelude.{◌≡◌};
ghost use Rattle.command.specs.Reader.{reader_at, handed_out, moved_on};

use super::{Command, decode};

// A file, and the offset of its next command.
#[derive(Clone, Copy)]
pub struct Reader<'a> {
    pub file: &'a [u8],
    pub at: usize,
}

impl<'a> Reader<'a> {
    // The reader at the start of a file.
    pub fn new(file: &'a [u8]) -> Reader<'a>
        ensures { result ≡ reader_at file.entry 0 }
    {
        Reader { file, at: 0 }
    }

    // Hands out the next command, and moves past it.
    pub fn next(&mut self) -> Command
        ensures { (result ≡ handed_out self.old) × (self.new ≡ moved_on self.old) }
    {
        let found = decode::found_at(self.file, self.at);
        self.at = found.end;
        found.command
    }
}
