// What a team's kind asks of an independent set: a case for each kind.
ghost use Rattle.std.specs.Prelude.{◌≡◌, ◌≤◌};
ghost use Rattle.matroid.specs.Matroid.{worth};
ghost use Rattle.sets.specs.Bits.{bit};
ghost use Rattle.sets.specs.Joining.{MayJoin, Grown};
ghost use Rattle.kinds.specs.Teams.{structure_of};

use loops::Spans;
use mounts::Tables;
use team::{Kind, Team};

// The ends of each instrument's SPAN in a team's file.
fn spans(team: &Team) -> Spans
    ensures { result ≡ record { first = team.now.first; second = team.now.second } }
{
    Spans {
        first: team.first,
        second: team.second,
    }
}

// What a team's file says of the mounts of its instruments.
// Kept (point 4): no `From`, since the kinds' crates know the tables that they read and nothing of a Team (decision 18).
fn tables(team: &Team) -> Tables
    ensures { result ≡ record { named = team.now.named; first = team.now.first; second = team.now.second; third = team.now.third; fourth = team.now.fourth } }
{
    Tables {
        named: team.named,
        first: team.first,
        second: team.second,
        third: team.third,
        fourth: team.fourth,
    }
}

// What a set is worth by a team's kind.
pub fn worth(team: &Team, m: usize, set: u64) -> usize
    requires { m ≤ 64 }
    ensures { result ≡ worth (structure_of m team.now) (bit set) }
{
    match Kind::try_from(team.kind) {
        Ok(Kind::Caps) => caps::worth(team.first, team.cap, m, set),
        Ok(Kind::Loops) => loops::worth(&spans(team), m, set),
        Ok(Kind::Mounts) => mounts::worth(&tables(team), m, set),
        Err(_) => 0,
    }
}

// The instruments below m, outside an independent set, that keep it independent.
pub fn gains(team: &Team, m: usize, set: u64) -> u64
    requires { m ≤ 64 }
    ensures { (structure_of m team.now).Indep (bit set) → MayJoin (structure_of m team.now) (bit set) result }
{
    match Kind::try_from(team.kind) {
        Ok(Kind::Caps) => caps::gains(team.first, team.cap, m, set),
        Ok(Kind::Loops) => loops::gains(&spans(team), m, set),
        Ok(Kind::Mounts) => mounts::gains(&tables(team), m, set),
        Err(_) => 0,
    }
}

// An independent set with members of another, at most so many more.
pub fn grown(team: &Team, m: usize, set: u64, from: u64, most: usize) -> u64
    requires { m ≤ 64 }
    ensures { Grown (structure_of m team.now) set from most result }
{
    match Kind::try_from(team.kind) {
        Ok(Kind::Caps) => caps::grown(team.first, team.cap, m, set, from, most),
        Ok(Kind::Loops) => loops::grown(&spans(team), m, set, from, most),
        Ok(Kind::Mounts) => mounts::grown(&tables(team), m, set, from, most),
        Err(_) => set,
    }
}
