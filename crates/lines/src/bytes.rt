// Bytes that a text writes as pairs of hexadecimal digits, with spaces between them or none.
ghost use Rattle.std.specs.Prelude.{◌≡◌, ◌<◌, ◌≤◌, MatchOption, length};
ghost use Rattle.std.specs.Iterator.{at_most};
ghost use Rattle.lines.specs.Counts.{IsPrefixLen};
ghost use Rattle.lines.specs.Pieces.{GivesByte, NoPair, Pair, digit_of};

// The bytes that are still to come, up to where no pair stands.
#[derive(Clone, Copy)]
pub struct Bytes<'a> {
    rest: &'a [u8],
}

// The bytes that a text writes.
pub fn of(text: &[u8]) -> Bytes<'_>
    ensures { result.rest.now ≡ text.now }
{
    Bytes { rest: text }
}

// The value of a hexadecimal digit in either case.
pub fn digit(byte: u8) -> Option<u8>
    ensures { MatchOption result (digit_of byte ≡ 16) (λ d. (d < 16) × (d ≡ digit_of byte)) }
{
    match byte {
        b'0'..=b'9' => Some(byte - b'0'),
        b'a'..=b'f' => Some(byte - b'a' + 10),
        b'A'..=b'F' => Some(byte - b'A' + 10),
        _ => None,
    }
}

// The byte that the first two bytes of a text write, and what stands after them.
pub fn pair(text: &[u8]) -> Option<(u8, &[u8])>
    ensures { MatchOption result (NoPair text.now) (λ read. Pair text.now read.0 read.1.now) }
{
    let [high, low, rest @ ..] = text else {
        return None;
    };
    let byte = digit(*high)? * 16 + digit(*low)?;
    Some((byte, rest))
}

impl Iterator for Bytes<'_> {
    type Item = u8;

    ghost next_gives = { GivesByte };

    ghost remaining = { λ s. at_most (length s.rest.now) };

    fn next(&mut self) -> Option<u8> {
        let (byte, rest) = pair(crate::trimmed(self.rest))?;
        self.rest = rest;
        Some(byte)
    }
}

// Puts the bytes that a text writes at the start of a lent buffer, as many as it has room for, and answers how many.
pub fn decode(text: &[u8], out: &mut [u8]) -> usize
    ensures { IsPrefixLen result out.new }
{
    let mut bytes = of(text);
    let mut count: usize = 0;
    for place in out.iter_mut() {
        let Some(byte) = bytes.next() else {
            break;
        };
        *place = byte;
        count += 1;
    }
    count
}

// The bytes that a text writes, at the start of a lent space: as many as it has room for.
pub fn decoded<'a>(text: &[u8], space: &'a mut [u8]) -> &'a mut [u8]
    ensures { length result.now ≤ length space.old }
{
    let count = decode(text, space);
    &mut space[..count]
}
