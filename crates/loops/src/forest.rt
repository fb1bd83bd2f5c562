// Accepted gauges, and the groups of joints carried along as each is accepted.
ghost use Rattle.std.specs.Prelude.{ℕ, ◌≡◌, ◌≤◌, List};
ghost use Rattle.loops.specs.Graphic.{net_of};
ghost use Rattle.loops.specs.Forests.{forest, Carried, CarriedOn};

use super::Spans;
use super::groups::Groups;

// Accepted gauges, and the groups of the joints that they connect.
#[derive(Clone, Copy)]
pub struct Forest {
    pub gauges: u64,
    pub groups: Groups,
}

impl Forest {
    // The forest of a set: its gauges below m, gone through in rising order, of which each is accepted that joins two groups.
    pub fn of(spans: &Spans, m: usize, set: u64) -> Forest
        requires { m ≤ 64 }
        ensures { (none : List ℕ) × CarriedOn (net_of spans.now.first spans.now.second) m (forest 0 none) set 64 (forest result.gauges result.groups.label) }
    {
        let mut forest = Forest {
            gauges: 0,
            groups: Groups::alone(),
        };
        forest.carry(spans, m, set, 64);
        forest
    }

    // The forest with gauges of a set below m, gone through in rising order: each is accepted that joins two groups, until so many have been.
    pub fn carry(&mut self, spans: &Spans, m: usize, from: u64, most: usize)
        requires { (m ≤ 64) × Carried (net_of spans.now.first spans.now.second) m (forest self.old.gauges self.old.groups.label) }
        ensures { CarriedOn (net_of spans.now.first spans.now.second) m (forest self.old.gauges self.old.groups.label) from most (forest self.new.gauges self.new.groups.label) }
    {
        let mut room = most;
        for g in sets::members(sets::candidates(m, self.gauges, from)) {
            if room == 0 {
                return;
            }
            let a = spans.first[g];
            let b = spans.second[g];
            if self.groups.apart(a, b) {
                self.groups.join(a, b);
                self.gauges = sets::with(self.gauges, g);
                room -= 1;
            }
        }
    }
}
