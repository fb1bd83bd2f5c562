// Groups of connected joints.
ghost use Rattle.std.specs.Prelude.{◌≡◌, ◌<◌};
ghost use Rattle.team.specs.Team.{joints};
ghost use Rattle.loops.specs.Groups.{alone, relabel, joined, apart};
ghost use Rattle.loops.specs.Forests.{groups_of, Holds};

use std::array;
use team::JOINTS;

// A table with a label for each joint: two joints are in one group where their labels are equal.
#[derive(Clone, Copy)]
pub struct Groups {
    pub label: [u8; JOINTS],
}

// A label, where q becomes p.
fn relabel(p: u8, q: u8, label: u8) -> u8
    ensures { result ≡ relabel p q label }
{
    if label == q { p } else { label }
}

impl Groups {
    // Every joint alone.
    pub fn alone() -> Groups
        ensures { Holds result.label alone }
    {
        Groups {
            label: array::from_fn(|j| j as u8),
        }
    }

    // The next groups, from the last ones and the two joints of the new gauge, in their place: the group of the second joint takes the label of the
    // first.
    pub fn join(&mut self, a: u8, b: u8)
        requires { (a < joints) × (b < joints) }
        ensures { Holds self.new.label (joined (groups_of self.old.label) a b) }
    {
        let p = self.label[usize::from(a)];
        let q = self.label[usize::from(b)];
        for label in self.label.iter_mut() {
            *label = relabel(p, q, *label);
        }
    }

    // Whether two joints are joints and in different groups.
    pub fn apart(&self, a: u8, b: u8) -> bool
        ensures { result ≡ apart (groups_of self.now.label) a b }
    {
        match (
            self.label.get(usize::from(a)),
            self.label.get(usize::from(b)),
        ) {
            (Some(p), Some(q)) => *p != *q,
            _ => false,
        }
    }
}
