// The sheet as bytes: its length, its fields and its form.
// Kept (point 5): m ≤ 64 and n ≤ 12 stand in each contract, as in `kinds`: the public functions take numbers.
#![tactic(auto)]

ghost use Rattle.std.specs.Prelude.{◌≡◌, ◌+◌, ◌*◌, ◌≤◌, length};
ghost use Rattle.sets.specs.Bundles.{Bundles};
ghost use Rattle.sheet.specs.Layout.{length_of, give_start, bound_start, share_start};
ghost use Rattle.sheet.specs.Fields.{word_at};
ghost use Rattle.sheet.specs.Named.{named};

pub mod form;

// How many bytes the sheet of m instruments and n teams has.
pub fn length(m: usize, n: usize) -> usize
    requires { (m ≤ 64) × (n ≤ 12) }
    ensures { result ≡ length_of m n }
{
    14 + 11 * n + 3 * m * (n + 1)
}

// The offset of the GIVE of instrument g.
pub fn give_start(g: usize) -> usize
    requires { g ≤ 64 }
    ensures { result ≡ give_start g }
{
    4 + 3 * g
}

// The offset of BOUND.
pub fn bound_start(m: usize) -> usize
    requires { m ≤ 64 }
    ensures { result ≡ bound_start m }
{
    4 + 3 * m
}

// The offset of the SHARE of team t.
pub fn share_start(m: usize, t: usize) -> usize
    requires { (m ≤ 64) × (t ≤ 12) }
    ensures { result ≡ share_start m t }
{
    bound_start(m) + 9 + t * (11 + 3 * m)
}

// The set whose 8 bytes stand at an offset.
pub fn word_at(sheet: &[u8], at: usize) -> u64
    requires { at + 8 ≤ length sheet.now }
    ensures { result ≡ word_at sheet.now at }
{
    let mut word: u64 = 0;
    for k in 0..8usize {
        word = word * 256 + sheet[at + 7 - k] as u64;
    }
    word
}

// What each of twelve gets of a row of m GIVEs or PARTs.
pub fn words(row: &[u8], m: usize) -> [u64; 12]
    requires { (m ≤ 64) × (3 * m ≤ length row.now) }
    ensures { Bundles m (named row.now) result }
{
    let mut words = [0u64; 12];
    for g in 0..m {
        let t = sets::wide(row[3 * g + 2]);
        if t < 12 {
            words[t] = sets::with(words[t], g);
        }
    }
    words
}
