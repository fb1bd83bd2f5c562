// Which instruments each team can use on its days, as words.
ghost use Rattle.std.specs.Prelude.{◌≡◌, ◌≤◌};
ghost use Rattle.sets.specs.Bits.{word};
ghost use Rattle.days.specs.Days.{always, usable_on};
ghost use Rattle.plan.specs.Teams.{usable_words};

use super::filled::filled;
use days::Days;

// The usable instruments of a team on its own days, given those of a team without DAYS.
fn on(shelf: [Days; 64], m: usize, own: Days, every: u64) -> u64
    requires { (m ≤ 64) × (every ≡ word m (usable_on shelf always)) }
    ensures { result ≡ word m (usable_on shelf own) }
{
    if days::dated(own) {
        days::usable(shelf, m, own)
    } else {
        every
    }
}

// The usable instruments of each of n teams, and none beyond. Those of a team without DAYS are found once for all such teams.
pub fn words(shelf: [Days; 64], m: usize, days: [Days; 12], n: usize) -> [u64; 12]
    requires { (m ≤ 64) × (n ≤ 12) }
    ensures { result ≡ usable_words shelf m days n }
{
    let every = days::usable(shelf, m, days::always());
    filled(n, 0, |t| on(shelf, m, days[t], every))
}
