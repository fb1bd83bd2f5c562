// LOOPS: no closed loop. The groups of connected joints are carried along as each gauge is accepted.
// Kept (point 5): m ≤ 64 stands in each contract, as in `kinds`.
#![tactic(auto)]

ghost use Rattle.std.specs.Prelude.{◌≡◌, ◌≤◌};
ghost use Rattle.matroid.specs.Matroid.{worth};
ghost use Rattle.sets.specs.Bits.{bit};
ghost use Rattle.sets.specs.Joining.{MayJoin, Grown};
ghost use Rattle.loops.specs.Graphic.{loops_of};

use forest::Forest;

mod forest;
mod groups;

// The two joints of each instrument's SPAN.
// Kept (point 6): tables side by side, as `Team` has them: `net_of` and `loops_of` name each.
#[derive(Clone, Copy)]
pub struct Spans {
    pub first: [u8; 64],
    pub second: [u8; 64],
}

// What a set is worth by the two joints of each instrument: how many of it, gone through in rising order, join two groups. Members at or
// above m are passed over.
pub fn worth(spans: &Spans, m: usize, set: u64) -> usize
    requires { m ≤ 64 }
    ensures { result ≡ worth (loops_of m spans.now.first spans.now.second) (bit set) }
{
    let forest = Forest::of(spans, m, set);
    sets::size_below(m, forest.gauges)
}

// The instruments below m, outside an independent set, that keep it independent.
pub fn gains(spans: &Spans, m: usize, set: u64) -> u64
    requires { m ≤ 64 }
    ensures { (loops_of m spans.now.first spans.now.second).Indep (bit set) → MayJoin (loops_of m spans.now.first spans.now.second) (bit set) result }
{
    let forest = Forest::of(spans, m, set);
    let free = sets::those(m, |g| forest.groups.apart(spans.first[g], spans.second[g]));
    sets::minus(free, set)
}

// An independent set with members of another, at most so many more. A set that is not independent stays as it is.
pub fn grown(spans: &Spans, m: usize, set: u64, from: u64, most: usize) -> u64
    requires { m ≤ 64 }
    ensures { Grown (loops_of m spans.now.first spans.now.second) set from most result }
{
    let mut forest = Forest::of(spans, m, set);
    if forest.gauges != sets::both(set, sets::all_below(m)) {
        return set;
    }
    forest.carry(spans, m, from, most);
    sets::either(set, forest.gauges)
}
