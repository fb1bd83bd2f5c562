// Standard output. A write that fails is answered by its error.
use std::{fmt, io};

// Bytes that print as hexadecimal.
#[derive(Clone, Copy)]
pub struct InHex<'a>(pub &'a [u8]);

impl fmt::Display for InHex<'_> {
    fn fmt<W: fmt::Write>(&self, f: &mut fmt::Formatter<W>) -> fmt::Result {
        for byte in self.0 {
            write!(f, "{byte:02x}")?;
        }
        Ok(())
    }
}

// `UNKNOWN` and a verb that a program does not know.
pub fn unknown(rt: &impl Print, verb: &[u8]) -> io::Result<()> {
    print!(rt; "UNKNOWN ")?;
    rt.write_all(verb)
}
