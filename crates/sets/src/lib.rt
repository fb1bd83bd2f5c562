// A set of instruments as a 64-bit word: bit k stands for instrument k.
// Kept (point 5): m ≤ 64 and k < 64 stand in each contract, since the public functions take plain numbers and may ask no more of callers.
#![tactic(auto)]

ghost use Rattle.std.specs.Prelude.{◌≡◌, ◌&&◌, not, ℕ, ◌<◌, ◌≤◌, length};
ghost use Rattle.matroid.specs.Set.{◌∪◌, ◌∩◌, ◌∖◌, only, with, without, under, complement, size};
ghost use Rattle.sets.specs.Bits.{bit};
ghost use Rattle.sets.specs.Lowest.{Lowest};
ghost use Rattle.sets.specs.Next.{First};
ghost use Rattle.sets.specs.Assigned.{Assigned};
ghost use Rattle.sets.specs.Chosen.{Chosen};

pub mod iter;

use iter::Members;

// Whether k is in s.
pub fn member(s: u64, k: usize) -> bool
    requires { k < 64 }
    ensures { result ≡ bit s k }
{
    (s >> k) % 2 == 1
}

// The set of k alone.
pub fn only(k: usize) -> u64
    requires { k < 64 }
    ensures { (j : ℕ) → bit result j ≡ only k j }
{
    1u64 << k
}

// What is in a or in b.
pub fn either(a: u64, b: u64) -> u64
    ensures { (j : ℕ) → bit result j ≡ (bit a ∪ bit b) j }
{
    a | b
}

// What is in a and in b.
pub fn both(a: u64, b: u64) -> u64
    ensures { (j : ℕ) → bit result j ≡ (bit a ∩ bit b) j }
{
    a & b
}

// What is in a and not in b.
pub fn minus(a: u64, b: u64) -> u64
    ensures { (j : ℕ) → bit result j ≡ (bit a ∖ bit b) j }
{
    a ^ (a & b)
}

// s with k.
pub fn with(s: u64, k: usize) -> u64
    requires { k < 64 }
    ensures { (j : ℕ) → bit result j ≡ with (bit s) k j }
{
    either(s, only(k))
}

// s without k.
pub fn without(s: u64, k: usize) -> u64
    requires { k < 64 }
    ensures { (j : ℕ) → bit result j ≡ without (bit s) k j }
{
    minus(s, only(k))
}

// The instruments below m.
pub fn all_below(m: usize) -> u64
    requires { m ≤ 64 }
    ensures { (j : ℕ) → bit result j ≡ under m j }
{
    if m < 64 { (1u64 << m) - 1 } else { u64::MAX }
}

// The least member of s, or 64 where s is empty.
// Kept (point 1): Lowest, which holds the clause, says 64 of an empty set. first answers an Option.
pub fn lowest(s: u64) -> usize
    ensures { Lowest s result }
{
    s.trailing_zeros() as usize
}

// The least member of s, if s has one.
pub fn first(s: u64) -> Option<usize>
    ensures { First s result }
{
    let k = lowest(s);
    if k < 64 { Some(k) } else { None }
}

// The members of a set, rising.
pub fn members(set: u64) -> Members
    ensures { result.left ≡ set }
{
    Members { left: set }
}

// How many are in s: the ones of the word.
pub fn size(s: u64) -> usize
    ensures { result ≡ size 64 (bit s) }
{
    s.count_ones() as usize
}

// The members of a set below m that are not in another.
pub fn candidates(m: usize, set: u64, from: u64) -> u64
    requires { m ≤ 64 }
    ensures { (j : ℕ) → bit result j ≡ ((bit from j && under m j) && not (bit set j)) }
{
    minus(both(from, all_below(m)), set)
}

// How many members of a set are below m.
pub fn size_below(m: usize, set: u64) -> usize
    requires { m ≤ 64 }
    ensures { result ≡ size m (bit set) }
{
    size(both(set, all_below(m)))
}

// How many instruments below m are outside a set.
pub fn outside(m: usize, set: u64) -> usize
    requires { m ≤ 64 }
    ensures { result ≡ size m (complement (bit set)) }
{
    size(minus(all_below(m), set))
}

// The numbers below m that pass a test.
pub fn those<F: Fn(usize) -> bool>(m: usize, test: F) -> u64
    requires small { m ≤ 64 }
    requires callable { (i : ℕ) → i < m → F.pre test i }
    ensures { Chosen m (F.post test) result }
{
    let mut set = 0;
    for i in 0..m {
        if test(i) {
            set = with(set, i);
        }
    }
    set
}

// A byte as a number.
pub fn wide(byte: u8) -> usize
    ensures { result ≡ byte }
{
    usize::from(byte)
}

// Writes a value at each member of a set.
pub fn assign(table: &mut [u8; 64], set: u64, value: u8)
    requires { length table.old ≡ 64 }
    ensures { Assigned table.old set value table.new }
{
    for k in members(set) {
        table[k] = value;
    }
}
