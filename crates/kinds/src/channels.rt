// A team's matroid: its structure, cut off at its channels.
ghost use Rattle.std.specs.Prelude.{◌≡◌, ◌+◌, ◌≤◌};
ghost use Rattle.matroid.specs.Set.{size};
ghost use Rattle.matroid.specs.Matroid.{worth};
ghost use Rattle.sets.specs.Bits.{bit};
ghost use Rattle.sets.specs.Joining.{MayJoin, Grown};
ghost use Rattle.kinds.specs.Teams.{kind_matroid};

use super::structure;
use team::Team;

// What a set is worth to a team.
pub fn worth(team: &Team, m: usize, set: u64) -> usize
    requires { m ≤ 64 }
    ensures { result ≡ worth (kind_matroid m team.now) (bit set) }
{
    let free = structure::worth(team, m, set);
    free.min(usize::from(team.channels))
}

// The instruments below m, outside an independent set, that keep it independent.
pub fn gains(team: &Team, m: usize, set: u64) -> u64
    requires { m ≤ 64 }
    ensures { (kind_matroid m team.now).Indep (bit set) → MayJoin (kind_matroid m team.now) (bit set) result }
{
    let channels = usize::from(team.channels);
    if channels <= sets::size_below(m, set) {
        return 0;
    }
    structure::gains(team, m, set)
}

// How many may still join a set below m by the channels, at most so many.
fn spare(channels: usize, m: usize, set: u64, most: usize) -> usize
    requires { m ≤ 64 }
    ensures few { result ≤ most }
    ensures room { size m (bit set) ≤ channels → size m (bit set) + result ≤ channels }
{
    let free = channels.saturating_sub(sets::size_below(m, set));
    most.min(free)
}

// An independent set with members of another, at most so many more.
pub fn grown(team: &Team, m: usize, set: u64, from: u64, most: usize) -> u64
    requires { m ≤ 64 }
    ensures { Grown (kind_matroid m team.now) set from most result }
{
    let room = spare(usize::from(team.channels), m, set, most);
    structure::grown(team, m, set, from, room)
}
