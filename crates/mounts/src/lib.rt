// MOUNTS: each instrument on a mount of its own that it fits.
// Kept (point 5): m ≤ 64 stands in each contract, as in `kinds`.
#![tactic(auto)]

ghost use Rattle.std.specs.Prelude.{◌≡◌, ◌≤◌, ◌<◌, slice_index};
ghost use Rattle.matroid.specs.Matroid.{worth};
ghost use Rattle.sets.specs.Bits.{bit};
ghost use Rattle.sets.specs.Joining.{MayJoin, Grown};
ghost use Rattle.mounts.specs.Mounts.{word_of};
ghost use Rattle.mounts.specs.Matching.{fits_in, mounts_in, Worded, Greatest};

use matching::Matching;

mod matching;

// What the plan file says of the mounts of each instrument.
// Kept (point 6): tables side by side, as `Team` has them: `mounts_of` and the theorems on a reading name each.
#[derive(Clone, Copy)]
pub struct Tables {
    // the byte of the command that names the instrument, 255 for none
    pub named: [u8; 64],
    // the bytes of its mounts, the low one first
    pub first: [u8; 64],
    pub second: [u8; 64],
    pub third: [u8; 64],
    pub fourth: [u8; 64],
}

// The mounts that each instrument fits, and a matching of as many members of a set as can be.
#[derive(Clone, Copy)]
struct Begun {
    fits: [u64; 64],
    held: Matching,
}

impl Tables {
    // The bytes of an instrument's mounts as one word.
    fn word(&self, g: usize) -> u64
        requires { g < 64 }
        ensures { result ≡ word_of (slice_index self.now.first g) (slice_index self.now.second g) (slice_index self.now.third g) (slice_index self.now.fourth g) }
    {
        u64::from(u32::from_le_bytes([
            self.first[g],
            self.second[g],
            self.third[g],
            self.fourth[g],
        ]))
    }

    // The mounts that each member of a set fits, as words.
    fn words(&self, of: u64) -> [u64; 64]
        ensures { Worded self.now.named self.now.first self.now.second self.now.third self.now.fourth of result }
    {
        let mut words = [0u64; 64];
        for g in sets::members(of) {
            if self.named[g] != 255 {
                words[g] = self.word(g);
            }
        }
        words
    }

    // How each operation begins: the tables of some instruments as words, and a matching of as many members of a set below m as can be.
    fn begin(&self, of: u64, m: usize, set: u64) -> Begun
        requires { m ≤ 64 }
        ensures words { Worded self.now.named self.now.first self.now.second self.now.third self.now.fourth of result.fits }
        ensures held { Greatest (fits_in result.fits) m (bit set) result.held }
    {
        let fits = self.words(of);
        let held = Matching::greatest(&fits, m, set);
        Begun { fits, held }
    }
}

// What a set is worth by the mounts that each instrument fits: how many of it can have a mount of their own. Members at or above m are passed over.
pub fn worth(tables: &Tables, m: usize, set: u64) -> usize
    requires { m ≤ 64 }
    ensures { result ≡ worth (mounts_in m tables.now) (bit set) }
{
    let begun = tables.begin(set, m, set);
    sets::size_below(m, begun.held.taken)
}

// The instruments below m, outside an independent set, that keep it independent: those that fit a mount that can be freed.
pub fn gains(tables: &Tables, m: usize, set: u64) -> u64
    requires { m ≤ 64 }
    ensures { (mounts_in m tables.now).Indep (bit set) → MayJoin (mounts_in m tables.now) (bit set) result }
{
    let begun = tables.begin(sets::all_below(m), m, set);
    let s = begun.held.search(&begun.fits);
    let joins = sets::those(m, |g| matching::meet(begun.fits[g], s.set));
    sets::minus(joins, set)
}

// An independent set with members of another, at most so many more.
pub fn grown(tables: &Tables, m: usize, set: u64, from: u64, most: usize) -> u64
    requires { m ≤ 64 }
    ensures { Grown (mounts_in m tables.now) set from most result }
{
    let begun = tables.begin(sets::either(set, from), m, set);
    let mut held = begun.held;
    let mut larger = set;
    let mut room = most;
    for g in sets::members(sets::candidates(m, set, from)) {
        if room == 0 {
            return larger;
        }
        held.join(&begun.fits, g);
        if sets::member(held.taken, g) {
            larger = sets::with(larger, g);
            room -= 1;
        }
    }
    larger
}
