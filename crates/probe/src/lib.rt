// For benchmarks: worth and gains of one team of a plan, called one time after another on sets that change, the answers added up.
#![tactic(auto)]

ghost use Rattle.std.specs.Prelude.{◌≤◌};

use kinds::Valuation;
use plan::Reading;

// Random words without end: each is the one before by three shifts.
#[derive(Drop)]
struct Words(u64);

impl Iterator for Words {
    type Item = u64;

    fn next(&mut self) -> Option<u64> {
        let a = self.0 ^ (self.0 << 13);
        let b = a ^ (a >> 7);
        self.0 = b ^ (b << 17);
        Some(self.0)
    }
}

const FIRST: u64 = 88172645463325252;

// The answers to that many words, added up.
fn added<F: FnMut(u64) -> u64>(rounds: u64, mut answer: F) -> u64
    requires { F.IsAlwaysCallable answer }
{
    let mut sum: u64 = 0;
    for word in Words(FIRST).take(rounds as usize) {
        sum = sum.wrapping_add(answer(word));
    }
    sum
}

// The worths of that many words.
fn worths(v: Valuation, m: usize, rounds: u64) -> u64
    requires { m ≤ 64 }
{
    added(rounds, |word| kinds::worth_of(v, m, word) as u64)
}

// An independent set with one of its gains, the least that a word has or of all where it has none; and the empty set where it has no gains.
fn grown(set: u64, gains: u64, word: u64) -> u64 {
    let some = sets::both(gains, word);
    let offered = if some == 0 { gains } else { some };
    sets::first(offered).map_or(0, |g| sets::with(set, g))
}

// The gains of that many independent sets, each grown from the one before.
fn gains(v: Valuation, m: usize, rounds: u64) -> u64
    requires { m ≤ 64 }
{
    let mut set: u64 = 0;
    added(
        rounds,
        |word|
            requires { m ≤ 64 }
        {
            let joining = kinds::gains_of(v, m, set);
            set = grown(set, joining, word);
            joining
        },
    )
}

// A count of instruments: a plan has no more than 64.
fn count_of(r: &Reading) -> usize
    ensures { result ≤ 64 }
{
    r.m.min(64)
}

// The valuation of a team of a reading on its days, and one of no kind where there is none.
fn valuation_of(r: &Reading, team: u64) -> Valuation {
    let t = team as usize;
    match (r.teams.get(t), r.days.get(t)) {
        (Some(team), Some(days)) => Valuation {
            team: *team,
            usable: days::usable(r.shelf, count_of(r), *days),
            glued: 0,
        },
        _ => kinds::blank(),
    }
}

// The worths of that many sets to a team, added up. A refused plan's teams have no kind.
pub fn probe_worth(file: &[u8], team: u64, rounds: u64) -> u64 {
    let r = plan::read(file);
    worths(valuation_of(&r, team), count_of(&r), rounds)
}

// The gains of that many independent sets of a team, added up.
pub fn probe_gains(file: &[u8], team: u64, rounds: u64) -> u64 {
    let r = plan::read(file);
    gains(valuation_of(&r, team), count_of(&r), rounds)
}
