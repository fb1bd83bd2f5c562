// A matching of instruments and mounts. It grows by one instrument at a time, from the free mounts back along the instruments that can be moved.
ghost use Rattle.std.specs.Prelude.{◌≡◌, not, ℕ, ◌≤◌, ◌<◌, T, replicate};
ghost use Rattle.matroid.specs.Set.{under};
ghost use Rattle.sets.specs.Bits.{bit};
ghost use Rattle.mounts.specs.Matching.{fits_in, Meets, Matched, Leads, Closed, Found, Swept, Joined, Greatest};

// The instruments that have a mount, the mounts that are free, and the instrument on each mount that is not.
// Kept (point 5): that it is a matching (`Matched`) is no ghost field, since it speaks of the mounts that fit too, which are lent beside it.
#[derive(Clone, Copy)]
pub struct Matching {
    pub taken: u64,
    pub free: u64,
    pub on: [u8; 32],
}

// The mounts that can be freed. The instrument on one can move to the mount `next`, found before it; `depth` says how late a mount was found.
// Kept (point 6): two tables, since `Leads` and `Found` speak of `next` and of `depth`, the measure by which the moves of `rematch` end.
#[derive(Clone, Copy)]
pub struct Freed {
    pub set: u64,
    pub next: [u8; 32],
    pub depth: [u8; 32],
}

// Whether two words have a member in common.
pub fn meet(a: u64, b: u64) -> bool
    ensures { Meets result (bit a) (bit b) }
{
    sets::both(a, b) != 0
}

impl Freed {
    // One more mount can be freed: its instrument can move to another.
    fn add(&mut self, c: usize, next: usize)
        requires { (c < 32) × (next < 64) }
        ensures { Found self.old self.new c next }
    {
        let depth = sets::size(self.set) + 1;
        self.next[c] = next as u8;
        self.depth[c] = depth as u8;
        self.set = sets::with(self.set, c);
    }
}

impl Matching {
    // No instrument has a mount.
    fn nobody() -> Matching
        ensures none { result.taken ≡ 0 }
        ensures free { (c : ℕ) → bit result.free c ≡ under 32 c }
        ensures on { result.on ≡ replicate 32 0 }
    {
        Matching {
            taken: 0,
            free: sets::all_below(32),
            on: [0; 32],
        }
    }

    // One pass over the mounts outside the set: those whose instrument fits one of the set can be freed too. None where there is no such mount.
    fn sweep(&self, fits: &[u64; 64], s: Freed) -> Option<Freed>
        requires { Matched (fits_in fits.now) self.now × Leads (fits_in fits.now) self.now s }
        ensures { Swept (fits_in fits.now) self.now s result }
    {
        let mut larger = s;
        for c in sets::members(sets::minus(sets::all_below(32), s.set)) {
            let reached = sets::both(fits[usize::from(self.on[c])], larger.set);
            if let Some(near) = sets::first(reached) {
                larger.add(c, near);
            }
        }
        if larger.set == s.set {
            return None;
        }
        Some(larger)
    }

    // All mounts that can be freed: the free ones, and back from these along the matching.
    pub fn search(&self, fits: &[u64; 64]) -> Freed
        requires { Matched (fits_in fits.now) self.now }
        ensures leads { Leads (fits_in fits.now) self.now result }
        ensures closed { Closed (fits_in fits.now) self.now result }
    {
        let mut s = Freed {
            set: self.free,
            next: [0; 32],
            depth: [0; 32],
        };
        while let Some(larger) = self.sweep(fits, s) {
            s = larger;
        }
        s
    }

    // An instrument joins on a mount that can be freed: the instrument that is there moves to the next mount, and so on up to a free one.
    fn rematch(&mut self, fits: &[u64; 64], g: usize)
        requires { Matched (fits_in fits.now) self.old × (g < 64) × T (not (bit self.old.taken g)) }
        ensures { Joined (fits_in fits.now) self.old g self.new }
    {
        let s = self.search(fits);
        let Some(mut at) = sets::first(sets::both(fits[g], s.set)) else {
            return;
        };
        self.taken = sets::with(self.taken, g);
        let mut mover = g as u8;
        loop {
            let there = self.on[at];
            self.on[at] = mover;
            if sets::member(self.free, at) {
                self.free = sets::without(self.free, at);
                return;
            }
            mover = there;
            at = usize::from(s.next[at]);
        }
    }

    // An instrument joins where mounts can be found for all: on a free mount, or on one that can be freed. Where no mount is free, none can be.
    pub fn join(&mut self, fits: &[u64; 64], g: usize)
        requires { Matched (fits_in fits.now) self.old × (g < 64) × T (not (bit self.old.taken g)) }
        ensures { Joined (fits_in fits.now) self.old g self.new }
    {
        if self.free == 0 {
            return;
        }
        let Some(at) = sets::first(sets::both(fits[g], self.free)) else {
            self.rematch(fits, g);
            return;
        };
        self.on[at] = g as u8;
        self.free = sets::without(self.free, at);
        self.taken = sets::with(self.taken, g);
    }

    // A matching of as many members of a set below m as can be: each in turn, in rising order, joins where it can.
    pub fn greatest(fits: &[u64; 64], m: usize, set: u64) -> Matching
        requires { m ≤ 64 }
        ensures { Greatest (fits_in fits.now) m (bit set) result }
    {
        let mut held = Matching::nobody();
        for g in sets::members(sets::both(set, sets::all_below(m))) {
            held.join(fits, g);
        }
        held
    }
}
