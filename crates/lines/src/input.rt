// Standard input.
ghost use Rattle.std.specs.Prelude.{◌≡◌, IfOk, length};
ghost use Rattle.lines.specs.Counts.{IsPrefixLen};

use std::io;
use std::io::{Input, Read};

// Reads until buf is full or the input ends, and answers how many bytes it put at the start of buf. A read that fails is answered by its error,
// and leaves a buffer as long as it was.
// Kept (point 6): the count is that of std's `read`, and the clause `long` speaks of the lent buffer after an error too.
pub fn read_full(rt: &impl Input, buf: &mut [u8]) -> io::Result<usize>
    ensures read { IfOk result (λ n. IsPrefixLen n buf.new) }
    ensures long { length buf.new ≡ length buf.old }
{
    let mut reader = rt.reader();
    let mut done: usize = 0;
    while done < buf.len() {
        let n = reader.read(&mut buf[done..])?;
        if n == 0 {
            break;
        }
        done += n;
    }
    Ok(done)
}
