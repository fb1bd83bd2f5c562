// What a set of instruments is worth by a valuation, and what may join it. Nothing above this crate knows a kind of team.
// Kept (point 5): m ≤ 64 stands in each contract here and in the kinds' crates, since `worth_of`, `gains_of` and `grown` take m as a number.
#![tactic(auto)]

ghost use Rattle.std.specs.Prelude.{◌≡◌, true, false, ◌≤◌};
ghost use Rattle.matroid.specs.Matroid.{worth};
ghost use Rattle.sets.specs.Bits.{bit};
ghost use Rattle.sets.specs.Joining.{MayJoin, Grown};
ghost use Rattle.kinds.specs.Teams.{kind_matroid};
ghost use Rattle.kinds.specs.Valuations.{matroid_of, blank_valuation};

use team::Team;

mod channels;
mod structure;

// What an agent values: a set of usable instruments, by what its team gains with it above the instruments that are glued to it.
#[derive(Clone, Copy)]
pub struct Valuation {
    pub team: Team,
    pub usable: u64,
    pub glued: u64,
}

// The valuation of a team of no kind: every set is worth 0.
pub fn blank() -> Valuation
    ensures { result ≡ blank_valuation }
{
    let team = team::blank();
    Valuation {
        team,
        usable: 0,
        glued: 0,
    }
}

impl Valuation {
    // Whether the glued instruments are independent for the team. The empty set is for each, so its worth is not asked.
    fn stands(&self, m: usize) -> bool
        requires { m ≤ 64 }
        ensures yes { result ≡ true → (kind_matroid m self.now.team).Indep (bit self.now.glued) }
        ensures no { result ≡ false → (kind_matroid m self.now.team).Indep (bit self.now.glued) → ⊥ }
    {
        if self.glued == 0 {
            return true;
        }
        channels::worth(&self.team, m, self.glued) == sets::size_below(m, self.glued)
    }
}

// What a set is worth by a valuation among m instruments. Members at or above m are passed over.
pub fn worth_of(v: Valuation, m: usize, set: u64) -> usize
    requires { m ≤ 64 }
    ensures { result ≡ worth (matroid_of m v) (bit set) }
{
    let whole = sets::either(sets::both(set, v.usable), v.glued);
    let worth = channels::worth(&v.team, m, whole);
    if !v.stands(m) {
        return 0;
    }
    worth - sets::size_below(m, v.glued)
}

// The instruments below m, outside an independent set, that keep it independent.
pub fn gains_of(v: Valuation, m: usize, set: u64) -> u64
    requires { m ≤ 64 }
    ensures { (matroid_of m v).Indep (bit set) → MayJoin (matroid_of m v) (bit set) result }
{
    let free = channels::gains(&v.team, m, sets::either(set, v.glued));
    if !v.stands(m) {
        return 0;
    }
    sets::both(free, v.usable)
}

// An independent set with members of another, at most so many more. It is a start for a search: how many join is no part of the promise.
pub fn grown(v: Valuation, m: usize, set: u64, from: u64, most: usize) -> u64
    requires { m ≤ 64 }
    ensures { Grown (matroid_of m v) set from most result }
{
    if most == 0 {
        return set;
    }
    let offered = sets::both(from, v.usable);
    let larger = channels::grown(&v.team, m, sets::either(set, v.glued), offered, most);
    if !v.stands(m) {
        return set;
    }
    sets::either(set, sets::minus(larger, v.glued))
}
