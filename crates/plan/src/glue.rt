// Which instruments are glued to a team, as words, and whether those of every team can stand together there.
ghost use Rattle.std.specs.Prelude.{◌≡◌, ◌+◌, ◌≤◌, ◌<◌, length, ltb};
ghost use Rattle.matroid.specs.Decide.{is_yes};
ghost use Rattle.matroid.specs.Set.{size};
ghost use Rattle.sets.specs.Bits.{bit, word};
ghost use Rattle.judge.specs.Fault.{named};
ghost use Rattle.plan.specs.Teams.{entries, before_glue, all_stand};
ghost use Rattle.plan.specs.Read.{accepted};
ghost use Rattle.plan.specs.Progress.{rows_in};

use super::parts;
use command::State;
use kinds::Valuation;
use team::Team;

// The instruments below m that have a number in a table.
fn marked(glue: [u8; 64], m: usize, number: u8) -> u64
    requires { m ≤ 64 }
    ensures { result ≡ word m (entries glue number) }
{
    sets::those(m, |i| glue[i] == number)
}

// Where the teams of the glued instruments stand in the table of rows.
pub const GLUED: usize = 13 * row::WIDTH + row::NAMED;

// Whether any instrument of a table is glued. They are counted, in a byte, which costs least.
pub fn some(glue: &[u8]) -> bool
    requires { length glue.now ≡ 64 }
    ensures { result ≡ ltb 0 (size 64 (named glue.now)) }
{
    let mut count: u8 = 0;
    for team in glue {
        if *team != 255 {
            count += 1;
        }
    }
    count > 0
}

// The instruments below m that are glued to anyone.
pub fn of_all(glue: [u8; 64], m: usize) -> u64
    requires { m ≤ 64 }
    ensures { result ≡ word m (named glue) }
{
    if !some(&glue) {
        return 0;
    }
    let free = marked(glue, m, 255);
    sets::minus(sets::all_below(m), free)
}

// The instruments below m that are glued to team t, given those that are glued to anyone: where none is, the table is not looked through.
pub fn of_team(glue: [u8; 64], m: usize, t: usize, all: u64) -> u64
    requires { (m ≤ 64) × (t < 12) × (all ≡ word m (named glue)) }
    ensures { result ≡ word m (entries glue (t + 1)) }
{
    if all == 0 {
        return 0;
    }
    marked(glue, m, (t + 1) as u8)
}

// Whether a set was independent for a team before any was glued, by its kind, its channels and its days.
fn stands(team: Team, usable: u64, m: usize, set: u64) -> bool
    requires { m ≤ 64 }
    ensures { result ≡ is_yes ((before_glue m team usable).decide (bit set)) }
{
    let before = Valuation {
        team,
        usable,
        glued: 0,
    };
    kinds::worth_of(before, m, set) == sets::size_below(m, set)
}

// Whether the glued instruments of every team were independent for it before any was glued, by the table of rows.
pub fn all_stand(s: State, rows: &[u8]) -> bool
    requires { (length rows.now ≡ 4802) × (s.n ≤ 12) × (s.m ≤ 64) }
    ensures { result ≡ all_stand (accepted s (rows_in rows.now s.n)) }
{
    let m = s.m;
    let n = s.n;
    let glue = parts::glue(rows);
    let all = of_all(glue, m);
    let shelf = parts::shelf(&rows[0..row::WIDTH], m);
    for t in 0..n {
        let team = parts::team_at(rows, t);
        let days = parts::days_at(rows, t);
        let usable = days::usable(shelf, m, days);
        let glued = of_team(glue, m, t, all);
        if !stands(team, usable, m, glued) {
            return false;
        }
    }
    true
}
