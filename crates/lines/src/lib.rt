// Lines of text as byte slices: their words, and the numbers and bytes written in them; and the printing of answers to them.
#![tactic(auto)]

ghost use Rattle.std.specs.Prelude.{◌≡◌, ◌≢◌, ◌<◌, ◌≤◌, ◌-◌, ◌==◌, ℕ, codes, drop, length, min, slice_index, take};
ghost use Rattle.std.specs.List.{after_first, before_first, prefix_len};

pub mod answers;
pub mod bytes;
pub mod input;
pub mod pieces;
pub mod print;
pub mod runs;
pub mod sheets;

// What stands before the first `byte`, and what stands after it: all and nothing where there is none.
pub fn split(text: &[u8], byte: u8) -> (&[u8], &[u8])
    ensures front { length result.0.now ≤ length text.now }
    ensures back { 0 < length text.now → length result.1.now < length text.now }
    ensures before { result.0.now ≡ before_first (λ b. b == byte) text.now }
    ensures after { result.1.now ≡ after_first (λ b. b == byte) text.now }
{
    match text.iter().position(|b| *b == byte) {
        Some(at) => (&text[..at], &text[at + 1..]),
        None => (text, &[]),
    }
}

// A text without the bytes `byte` that it starts with.
pub fn skip(text: &[u8], byte: u8) -> &[u8]
    ensures short { length result.now ≤ length text.now }
    ensures left { result.now ≡ drop (prefix_len (λ b. b == byte) text.now) text.now }
{
    match text.iter().position(|b| *b != byte) {
        Some(start) => &text[start..],
        None => &[],
    }
}

// A text without the spaces that it starts with.
pub fn trimmed(text: &[u8]) -> &[u8]
    ensures short { length result.now ≤ length text.now }
    ensures left { result.now ≡ drop (prefix_len (λ b. b == 32) text.now) text.now }
{
    skip(text, b' ')
}

// The first word of a line that starts with no space.
pub fn word(line: &[u8]) -> &[u8]
    ensures { result.now ≡ before_first (λ b. b == 32) line.now }
{
    split(line, b' ').0
}

// What follows the first word and the spaces after it.
pub fn rest(line: &[u8]) -> &[u8]
    ensures { let after = after_first (λ b. b == 32) line.now in result.now ≡ drop (prefix_len (λ b. b == 32) after) after }
{
    trimmed(split(line, b' ').1)
}

// What follows the first `byte`, and nothing where there is none.
pub fn after(text: &[u8], byte: u8) -> &[u8]
    ensures { result.now ≡ after_first (λ b. b == byte) text.now }
{
    split(text, byte).1
}

// The first n bytes, and all where there are fewer.
pub fn front(bytes: &[u8], n: usize) -> &[u8]
    ensures short { length result.now ≤ length bytes.now }
    ensures first { result.now ≡ take n bytes.now }
{
    bytes.get(..n).unwrap_or(bytes)
}

// The same of bytes that are lent to be written.
pub fn front_mut(bytes: &mut [u8], n: usize) -> &mut [u8]
    ensures { result.now ≡ take (min n (length bytes.old)) bytes.old }
{
    let end = n.min(bytes.len());
    &mut bytes[..end]
}

// The least offset from which on each byte is the filler.
pub fn unchanged_from(space: &[u8], filler: u8) -> usize
    ensures within { result ≤ length space.now }
    ensures same { (k : ℕ) → result ≤ k → k < length space.now → slice_index space.now k ≡ filler }
    ensures least { 0 < result → slice_index space.now (result - 1) ≢ filler }
{
    space
        .iter()
        .rposition(|byte| *byte != filler)
        .map_or(0, |last| last + 1)
}

// The decimal number that the text starts with, up to its last digit or its sixth.
pub fn number(text: &[u8]) -> usize
    ensures { result < 1000000 }
{
    let mut value: usize = 0;
    for byte in text {
        match char::from(*byte).to_digit(10) {
            Some(digit) if value < 100000 => value = value * 10 + digit as usize,
            _ => break,
        }
    }
    value
}

// The same number, and the greatest of all where the first word is `max`.
pub fn number_or_max(text: &[u8]) -> usize
    ensures all { before_first (λ b. b == 32) text.now ≡ codes "max" → result ≡ usize.MAX }
    ensures below { before_first (λ b. b == 32) text.now ≢ codes "max" → result < 1000000 }
{
    match word(text) {
        b"max" => usize::MAX,
        _ => number(text),
    }
}

// A number as a byte, and 255 where it is greater.
pub fn byte(n: usize) -> u8
    ensures { result ≡ min n 255 }
{
    u8::try_from(n).unwrap_or(u8::MAX)
}
