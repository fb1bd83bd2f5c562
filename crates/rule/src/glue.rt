// Glued instruments by the words of note 6: "A set is independent for a team if it holds no instrument glued to anyone and, together with the
// team's glued ones, was independent before this note."
use super::Independence;
use team::Team;

// A team, the instruments that it can use on its days, those that are glued to it, and those that are glued to anyone.
#[derive(Clone, Copy)]
pub struct Site {
    pub team: Team,
    pub usable: u64,
    pub own: u64,
    pub anyone: u64,
}

impl Site {
    // Whether a set was independent for the team before the note.
    fn before(&self, set: u64) -> bool {
        sets::minus(set, self.usable) == 0 && self.team.independent(set)
    }

    // Whether the instruments glued to the team were independent for it before the note. Where they were not, the plan is refused with 18.
    pub fn stands(&self) -> bool {
        self.before(self.own)
    }
}

impl Independence for Site {
    fn independent(&self, set: u64) -> bool {
        sets::both(set, self.anyone) == 0 && self.before(sets::either(set, self.own))
    }
}
