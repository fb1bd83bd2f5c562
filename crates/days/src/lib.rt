// Loan days: the days of a team, the shelf days of an instrument, and which instruments are usable on a team's days.
#![tactic(auto)]

ghost use Rattle.std.specs.Prelude.{◌≡◌, ◌≤◌, leb};
ghost use Rattle.sets.specs.Bits.{word};
ghost use Rattle.days.specs.Days.{always, dated, day_of, given, within, usable_on};

// From a day, which is included, to a day, which is not. Days count from the pool's first, day 0.
#[derive(Clone, Copy, PartialEq, Eq)]
pub struct Days {
    pub from: u16,
    pub to: u16,
}

// The days where none are named.
pub fn always() -> Days
    ensures { result ≡ always }
{
    Days { from: 0, to: 65535 }
}

// A day by its two bytes, the low one first.
pub fn day(low: u8, high: u8) -> u16
    ensures { result ≡ day_of low high }
{
    u16::from_le_bytes([low, high])
}

// Whether a from is not below its to, by the two bytes of each, the low one first.
// Kept (point 5): the clauses of not_below and given are over the four bytes, which stand one by one in a command and in a row.
pub fn not_below(a: u8, b: u8, c: u8, d: u8) -> bool
    ensures { result ≡ leb (day_of c d) (day_of a b) }
{
    day(a, b) >= day(c, d)
}

// The days of a command, by its byte and the four bytes of its days. 255 is no command's byte.
// Kept (point 1): the clause given says 255 for no command, as the byte stands in a row.
pub fn given(command: u8, a: u8, b: u8, c: u8, d: u8) -> Days
    ensures { result ≡ given command a b c d }
{
    if command == 255 {
        return always();
    }
    Days {
        from: day(a, b),
        to: day(c, d),
    }
}

// Whether days are others than where none are named.
pub fn dated(days: Days) -> bool
    ensures { result ≡ dated days }
{
    days != always()
}

// Whether days lie within shelf days. Equal ends are within.
pub fn within(days: Days, shelf: Days) -> bool
    ensures { result ≡ within days shelf }
{
    shelf.from <= days.from && days.to <= shelf.to
}

// The instruments below m whose shelf days hold some days.
pub fn usable(shelf: [Days; 64], m: usize, days: Days) -> u64
    requires { m ≤ 64 }
    ensures { result ≡ word m (usable_on shelf days) }
{
    sets::those(m, |i| within(days, shelf[i]))
}
