// Who holds each instrument, with the size of each bundle and the shortfall, and the operations that change it: give, return and chain.
// Kept (point 5): `Right` is no invariant of the type: note 7 has give, return and chain called "only on a holding where both are right".
#![tactic(auto)]

ghost use Rattle.std.specs.Prelude.{◌≡◌, true, ◌≤◌, ◌<◌, min, get_or};
ghost use Rattle.matroid.specs.Sum.{sum};
ghost use Rattle.matroid.specs.Shortfall.{shortfall};
ghost use Rattle.sets.specs.Bundles.{Bundles};
ghost use Rattle.holding.specs.Count.{size_in, sizes_in, counted, Right};
ghost use Rattle.holding.specs.Tally.{size_at, share_at, tally_of, next_by, raised_at, lowered_at};
ghost use Rattle.holding.specs.Give.{holder_of, is_instrument, is_team, in_pool, all_in_pool, measured_by, gave, returned};
ghost use Rattle.holding.specs.Chain.{may_move, moves_fit, carried_out, chained};
ghost use Rattle.holding.specs.Words.{Pool};

// The owner of each instrument. Instruments are the numbers below m and 64, teams those below n and 12; an instrument whose owner is no
// team is in the pool (255 is what is written there). Beside the owners: the shares it is measured against, the size of each bundle (0 beyond the
// last team), and the sum over short teams of share minus size.
#[derive(Clone, Copy, PartialEq, Eq)]
pub struct Holding {
    pub m: usize,
    pub n: usize,
    // Kept (point 1): any byte that is no team stands for the pool, and a return writes 255 (`in_pool`, `returned`, `returned_gave`).
    pub owner: [u8; 64],
    pub shares: [u8; 12],
    pub sizes: [u8; 12],
    pub shortfall: usize,
}

// A move: an instrument goes to a team.
#[derive(Clone, Copy)]
pub struct Move {
    pub item: u8,
    pub to: u8,
}

// A list of moves: the first of a table, as many as the count says. More than 64 do not fit.
#[derive(Clone, Copy)]
pub struct Moves {
    // Kept (point 6): a count above 64 can be written, and `chain` refuses it; memory is fixed.
    pub count: usize,
    pub list: [Move; 64],
}

// How many instruments there are.
fn instruments(m: usize) -> usize
    ensures { result ≡ min m 64 }
{
    m.min(64)
}

// How many teams there are.
fn teams(n: usize) -> usize
    ensures { result ≡ min n 12 }
{
    n.min(12)
}

// What n teams lack of their shares in all, by the sizes of their bundles.
fn shortfall_of(n: usize, shares: [u8; 12], sizes: [u8; 12]) -> usize
    ensures { result ≡ shortfall (min n 12) (λ t. get_or shares t 0) (λ t. get_or sizes t 0) }
{
    let end = teams(n);
    let mut sum: usize = 0;
    for (share, size) in shares[..end].iter().zip(&sizes[..end]) {
        sum += share.saturating_sub(*size) as usize;
    }
    sum
}

// The counts of a holding alone: the shares it is measured against, the size of each bundle, and the shortfall.
#[derive(Clone, Copy)]
pub struct Tally {
    pub shares: [u8; 12],
    pub sizes: [u8; 12],
    pub shortfall: usize,
}

impl Tally {
    // One more is with team t: the shortfall falls where it is short.
    fn raised(mut self, t: usize) -> Tally
        requires { (t < 12) × (size_at self t < 255) × (size_at self t < share_at self t → 0 < self.shortfall) }
        ensures { result ≡ raised_at self t }
    {
        let size = self.sizes[t];
        if size < self.shares[t] {
            self.shortfall -= 1;
        }
        self.sizes[t] = size + 1;
        self
    }

    // One fewer is with team t: the shortfall rises where it is short then.
    fn lowered(mut self, t: usize) -> Tally
        requires { (t < 12) × (0 < size_at self t) × (self.shortfall ≤ 3060) }
        ensures { result ≡ lowered_at self t }
    {
        let left = self.sizes[t] - 1;
        if left < self.shares[t] {
            self.shortfall += 1;
        }
        self.sizes[t] = left;
        self
    }
}

impl Holding {
    // The counts.
    fn tally(self) -> Tally
        ensures { result ≡ tally_of self }
    {
        let shares = self.shares;
        let sizes = self.sizes;
        Tally {
            shares,
            sizes,
            shortfall: self.shortfall,
        }
    }

    // The holding with other owners and counts.
    fn with(self, owner: [u8; 64], tally: Tally) -> Holding
        ensures { result ≡ next_by self owner tally }
    {
        let shares = tally.shares;
        let sizes = tally.sizes;
        Holding {
            owner,
            shares,
            sizes,
            shortfall: tally.shortfall,
            ..self
        }
    }

    // The holding with these owners and shares, by the sizes of its bundles.
    pub fn of(m: usize, n: usize, owner: [u8; 64], shares: [u8; 12], sizes: [u8; 12]) -> Holding
        requires { sizes ≡ sizes_in m n owner }
        ensures { result ≡ counted m n owner shares }
    {
        Holding {
            m,
            n,
            owner,
            shares,
            sizes,
            shortfall: shortfall_of(n, shares, sizes),
        }
    }

    // The holding with these owners and shares, both counted afresh.
    pub fn counted(m: usize, n: usize, owner: [u8; 64], shares: [u8; 12]) -> Holding
        ensures { result ≡ counted m n owner shares }
    {
        let end = instruments(m);
        let last = teams(n);
        let mut sizes = [0u8; 12];
        for holder in &owner[..end] {
            let t = usize::from(*holder);
            if t < last {
                sizes[t] += 1;
            }
        }
        Holding::of(m, n, owner, shares, sizes)
    }

    // Every instrument in the pool.
    pub fn empty(m: usize, n: usize, shares: [u8; 12]) -> Holding
        ensures { result ≡ all_in_pool m n shares }
    {
        Holding::of(m, n, [255u8; 64], shares, [0u8; 12])
    }

    // The same bundles, measured against other shares.
    pub fn measured(self, shares: [u8; 12]) -> Holding
        requires { Right self }
        ensures { result ≡ measured_by self shares }
    {
        Holding::of(self.m, self.n, self.owner, shares, self.sizes)
    }

    // How many instruments the teams hold.
    pub fn total(self) -> usize
        requires { Right self }
        ensures { result ≡ sum (min self.n 12) (size_in self.m self.owner) }
    {
        let end = teams(self.n);
        let mut sum: usize = 0;
        for size in &self.sizes[..end] {
            sum += usize::from(*size);
        }
        sum
    }

    // Whether g is one of the instruments.
    fn is_instrument(self, g: usize) -> bool
        ensures { result ≡ is_instrument self g }
    {
        g < self.m && g < 64
    }

    // Whether t is one of the teams.
    fn is_team(self, t: usize) -> bool
        ensures { result ≡ is_team self t }
    {
        t < self.n && t < 12
    }

    // The owner of g.
    // Kept (point 1): `holder_of` says 255 past the table, as of an instrument in the pool.
    fn holder(self, g: usize) -> usize
        ensures { result ≡ holder_of self g }
    {
        if g < 64 { self.owner[g] as usize } else { 255 }
    }

    // Whether no team holds g.
    fn in_pool(self, g: usize) -> bool
        ensures { result ≡ in_pool self g }
    {
        !self.is_team(self.holder(g))
    }

    // Give: an instrument of the pool goes to a team.
    pub fn give(self, g: usize, t: usize) -> Holding
        requires { Right self }
        ensures next { result ≡ gave self g t }
        ensures right { Right result }
    {
        if self.is_instrument(g) && self.is_team(t) && self.in_pool(g) {
            let mut owner = self.owner;
            owner[g] = t as u8;
            return self.with(owner, self.tally().raised(t));
        }
        self
    }

    // Return: an instrument of a team goes to the pool.
    pub fn give_back(self, g: usize) -> Holding
        requires { Right self }
        ensures next { result ≡ returned self g }
        ensures right { Right result }
    {
        if self.is_instrument(g) && !self.in_pool(g) {
            let from = self.holder(g);
            let mut owner = self.owner;
            owner[g] = 255;
            return self.with(owner, self.tally().lowered(from));
        }
        self
    }

    // Whether a move of g to t fits: an instrument and a team. Every instrument is in the pool or with a team, so its place fits.
    fn may_move(self, g: usize, t: usize) -> bool
        ensures { result ≡ may_move self g t }
    {
        self.is_instrument(g) && self.is_team(t)
    }

    // Whether all moves fit, and none moves an instrument again.
    fn fits(self, moves: Moves) -> bool
        ensures { result ≡ moves_fit self moves }
    {
        let count = moves.count;
        if count > 64 {
            return false;
        }
        let mut seen: u64 = 0;
        for step in &moves.list[..count] {
            let g = step.item as usize;
            if !self.may_move(g, step.to as usize) {
                return false;
            }
            if sets::member(seen, g) {
                return false;
            }
            seen = sets::with(seen, g);
        }
        true
    }

    // The holding after moves that fit: one fewer where an instrument comes from, a team or the pool, and one more with the team that gets it.
    // What goes to the team that has it is counted there already.
    fn carried_out(self, moves: Moves) -> Holding
        requires { Right self × (moves_fit self moves ≡ true) }
        ensures { result ≡ carried_out self moves }
    {
        let steps = &moves.list[..moves.count];
        let last = teams(self.n);
        let mut owner = self.owner;
        let mut sizes = self.sizes;
        for step in steps {
            let g = step.item as usize;
            let t = step.to as usize;
            let from = owner[g] as usize;
            if from != t {
                if from < last {
                    sizes[from] -= 1;
                }
                sizes[t] += 1;
            }
            owner[g] = step.to;
        }
        Holding::of(self.m, self.n, owner, self.shares, sizes)
    }

    // Chain: carries out a list of moves, or none where one does not fit.
    pub fn chain(self, moves: Moves) -> Holding
        requires { Right self }
        ensures next { result ≡ chained self moves }
        ensures right { Right result }
    {
        if self.fits(moves) {
            self.carried_out(moves)
        } else {
            self
        }
    }

    // The bundle of each team, as a word.
    pub fn bundles(self) -> [u64; 12]
        ensures { Bundles self.m (holder_of self) result }
    {
        let end = instruments(self.m);
        let mut words = [0u64; 12];
        for (g, holder) in self.owner[..end].iter().enumerate() {
            let t = usize::from(*holder);
            if t < 12 {
                words[t] = sets::with(words[t], g);
            }
        }
        words
    }

    // The instruments in the pool, as a word.
    pub fn pool(self) -> u64
        ensures { Pool self result }
    {
        sets::those(instruments(self.m), |g| self.in_pool(g))
    }
}
