// Text in a buffer from an offset on, as far as the buffer reaches. Each function answers the offset after what it put.
ghost use Rattle.std.specs.Prelude.{[], ◌∷◌, ◌+◌, ◌≤◌, length};
ghost use Rattle.listing.specs.Text.{decimal as Text·decimal, field as Text·field};
ghost use Rattle.listing.specs.Put.{Put};

// One byte.
fn byte(buffer: &mut [u8], at: usize, b: u8) -> usize
    requires { at ≤ 200000 }
    ensures { Put buffer.old at (b ∷ []) buffer.new result }
{
    if at < buffer.len() {
        buffer[at] = b;
    }
    at + 1
}

// Bytes as they are.
pub fn word(buffer: &mut [u8], at: usize, bytes: &[u8]) -> usize
    requires { (at ≤ 100000) × (length bytes.now ≤ 100) }
    ensures { Put buffer.old at bytes.now buffer.new result }
{
    let mut next = at;
    for b in bytes {
        next = byte(buffer, next, *b);
    }
    next
}

// A number in decimal. Its digits are made from the last one on.
// Kept (points 3, 4): the bytes go into a lent buffer as far as it reaches, which std's formatting does not do (decision 22).
fn decimal(buffer: &mut [u8], at: usize, n: usize) -> usize
    requires { at ≤ 100000 }
    ensures put { Put buffer.old at (Text·decimal n) buffer.new result }
    ensures short { result ≤ at + 20 }
{
    let mut digits = [0u8; 20];
    let mut i: usize = 19;
    let mut rest = n;
    digits[i] = 48 + (rest % 10) as u8;
    while 10 <= rest {
        i -= 1;
        rest = rest / 10;
        digits[i] = 48 + (rest % 10) as u8;
    }
    word(buffer, at, &digits[i..])
}

// A word and a number.
pub fn field(buffer: &mut [u8], at: usize, bytes: &[u8], n: usize) -> usize
    requires { (at ≤ 90000) × (length bytes.now ≤ 8) }
    ensures put { Put buffer.old at (Text·field bytes.now n) buffer.new result }
    ensures short { result ≤ at + 28 }
{
    let next = word(buffer, at, bytes);
    decimal(buffer, next, n)
}
