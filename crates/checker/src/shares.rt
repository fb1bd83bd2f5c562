// The shares that a sheet states: each by the team's own PARTs and set, and held against what the team holds.
// Kept (point 5): m ≤ 64 and n ≤ 12 stand in each contract, as in `sheet`.
ghost use Rattle.std.specs.Prelude.{◌≡◌, ℕ, ◌+◌, ◌*◌, ◌≤◌, length};
ghost use Rattle.sets.specs.Bits.{bit};
ghost use Rattle.sets.specs.Bundles.{Bundles};
ghost use Rattle.kinds.specs.Valuations.{matroid_of, matroids};
ghost use Rattle.sheet.specs.Layout.{length_of, share_start};
ghost use Rattle.sheet.specs.Fields.{holder_at, share_at, set_at, part_at};
ghost use Rattle.sheet.specs.Named.{named};
ghost use Rattle.checker.specs.Rules.{found, parts_hold, share_holds, wrong_share_at, short_at};

use kinds::Valuation;

// Whether each of p parts, an empty one included, is worth the share. None is looked at where the share is 0.
fn parts_hold(valuation: Valuation, m: usize, p: usize, share: usize, parts: [u64; 12]) -> bool
    requires { (m ≤ 64) × (p ≤ 12) }
    ensures { (C : ℕ → ℕ) → Bundles m C parts → result ≡ parts_hold (matroid_of m valuation) p share C }
{
    if share == 0 {
        return true;
    }
    for part in &parts[..p] {
        if kinds::worth_of(valuation, m, *part) < share {
            return false;
        }
    }
    true
}

// Whether a team's m PARTs show that a share is reached, and its set that no larger one is, with p teams present.
fn share_holds(valuation: Valuation, m: usize, p: usize, share: u8, set: u64, parts: &[u8]) -> bool
    requires { (m ≤ 64) × (p ≤ 12) × (3 * m ≤ length parts.now) }
    ensures { result ≡ share_holds (matroid_of m valuation) p share set (named parts.now) }
{
    let s = sets::wide(share);
    if parts_hold(valuation, m, p, s, sheet::words(parts, m)) {
        let most = sets::outside(m, set) + p * kinds::worth_of(valuation, m, set);
        return most < p * (s + 1);
    }
    false
}

// Whether the share of team t holds, with p teams present.
fn team_holds(valuation: Valuation, m: usize, p: usize, t: usize, sheet: &[u8]) -> bool
    requires { (m ≤ 64) × (p ≤ 12) × (t ≤ 12) × (share_start m t + (11 + 3 * m) ≤ length sheet.now) }
    ensures { result ≡ share_holds (matroid_of m valuation) p (share_at m sheet.now t) (set_at m sheet.now t) (part_at m sheet.now t) }
{
    let at = sheet::share_start(m, t);
    let set = sheet::word_at(sheet, at + 3);
    let start = at + 11;
    let end = start + 3 * m;
    share_holds(valuation, m, p, sheet[at + 2], set, &sheet[start..end])
}

// The lowest team whose share is not what its PARTs and its set show. Those in `here` are present, and no other team is tested.
pub fn first_wrong(
    valuations: [Valuation; 12],
    m: usize,
    n: usize,
    here: u64,
    sheet: &[u8],
) -> Option<usize>
    requires { (m ≤ 64) × (n ≤ 12) × (length valuations ≡ 12) × (length_of m n ≤ length sheet.now) }
    ensures { result ≡ found n (wrong_share_at n (bit here) (matroids m valuations) sheet.now) }
{
    let p = sets::size_below(n, here);
    for (t, valuation) in valuations[..n].iter().enumerate() {
        if sets::member(here, t) {
            if !team_holds(*valuation, m, p, t, sheet) {
                return Some(t);
            }
        }
    }
    None
}

// The lowest team that holds fewer instruments than its share.
pub fn first_short(bundles: [u64; 12], m: usize, n: usize, sheet: &[u8]) -> Option<usize>
    requires { (m ≤ 64) × (n ≤ 12) × (length_of m n ≤ length sheet.now) }
    ensures { Bundles m (holder_at sheet.now) bundles → result ≡ found n (short_at m n sheet.now) }
{
    for (t, bundle) in bundles[..n].iter().enumerate() {
        let share = sets::wide(sheet[sheet::share_start(m, t) + 2]);
        if sets::size(*bundle) < share {
            return Some(t);
        }
    }
    None
}
