// Breadth-first search over exchanges, from what source agents can gain to a target instrument.
// Kept (point 5): docs/STATEMENTS.md names the search and `divide`, so a ghost field of Agents for `Ready` or `ValidAgents` would ask more of their callers.
ghost use Rattle.std.specs.Prelude.{◌≡◌, List, ℕ, ◌≤◌, ◌<◌};
ghost use Rattle.exchange.specs.Agents.{Ready};
ghost use Rattle.exchange.specs.Search.{Rooting, Marked, ended_at, Exchanges, Rest, Scanned, Outcome};

use super::Agents;
use kinds::Valuation;

// What a search has reached: the instruments, the one each was reached from (255: a source can gain it), and the agent that gets it.
#[derive(Clone, Copy)]
pub struct Trace {
    pub seen: u64,
    // Kept (points 1, 6): `Rooting`, `Labelling` and `Followed` read both as tables of numbers, 255 for a root; the roots fill `to` alone.
    pub parent: [u8; 64],
    pub to: [u8; 64],
}

// How a search ends: with a chain's end, or with nothing more to reach.
#[derive(Clone, Copy)]
pub struct Reached {
    pub end: Option<usize>,
    pub trace: Trace,
}

// What the source agents can gain, each with an agent that can gain it.
fn roots(s: Agents, bundles: [u64; 12], sources: u64) -> Trace
    requires { (s.m ≤ 64) × (s.n ≤ 12) }
    ensures { (owner : List ℕ) → Ready s owner bundles → Rooting s owner sources s.n result }
{
    let mut seen: u64 = 0;
    let mut to = [255u8; 64];
    for (t, v) in s.valuations[..s.n].iter().enumerate() {
        if sets::member(sources, t) {
            let free = kinds::gains_of(*v, s.m, bundles[t]);
            let fresh = sets::minus(free, seen);
            sets::assign(&mut to, fresh, t as u8);
            seen = sets::either(seen, free);
        }
    }
    Trace {
        seen,
        parent: [255u8; 64],
        to,
    }
}

impl Trace {
    // x is reached from g, and agent t gets it.
    fn marked(mut self, x: usize, g: usize, t: u8) -> Trace
        requires { (x < 64) × (g < 64) }
        ensures { Marked self x g t result }
    {
        self.seen = sets::with(self.seen, x);
        self.parent[x] = g as u8;
        self.to[x] = t;
        self
    }

    // How the search ends: at an instrument, or with nothing more to reach.
    fn ended(self, end: Option<usize>) -> Reached
        ensures { result ≡ ended_at self end }
    {
        Reached { end, trace: self }
    }
}

// The instruments not seen yet that can take the place of g in a bundle. Where all are seen, the valuation is not asked.
fn exchanges(v: Valuation, m: usize, bundle: u64, g: usize, seen: u64) -> u64
    requires { (m ≤ 64) × (g < 64) }
    ensures { Exchanges m v bundle g seen result }
{
    if sets::minus(sets::all_below(m), seen) == 0 {
        return 0;
    }
    let free = kinds::gains_of(v, m, sets::without(bundle, g));
    sets::minus(sets::minus(free, bundle), seen)
}

// What is left of the level that is being scanned or, where nothing is, the next level.
fn rest(todo: u64, seen: u64, scanned: u64) -> u64
    ensures { Rest todo seen scanned result }
{
    let done = todo == 0;
    if done {
        sets::minus(seen, scanned)
    } else {
        todo
    }
}

// From what the sources can gain, the reached instruments are scanned level by level, each against all instruments, held and unheld; the
// scan is left with the chain's end as soon as a target is reached.
fn scan(s: Agents, owner: [u8; 64], bundles: [u64; 12], target: u64, start: Trace) -> Reached
    requires { Ready s owner bundles }
    ensures { Scanned s owner target start result }
{
    let mut trace = start;
    let mut scanned: u64 = 0;
    let mut todo = trace.seen;
    let end = 'scan: loop {
        todo = rest(todo, trace.seen, scanned);
        let Some(g) = sets::first(todo) else {
            break None;
        };
        let t = owner[g];
        let agent = t as usize;
        let fresh = if agent < s.n {
            exchanges(s.valuations[agent], s.m, bundles[agent], g, trace.seen)
        } else {
            0
        };
        for x in sets::members(fresh) {
            trace = trace.marked(x, g, t);
            if sets::member(target, x) {
                break 'scan Some(x);
            }
        }
        scanned = sets::with(scanned, g);
        todo = sets::without(todo, g);
    };
    trace.ended(end)
}

// Searches breadth-first from what the source agents can gain to a target. Where a source can gain a target, that is the end.
pub fn search(s: Agents, owner: [u8; 64], bundles: [u64; 12], sources: u64, target: u64) -> Reached
    requires { Ready s owner bundles }
    ensures { Outcome s owner sources target result }
{
    let start = roots(s, bundles, sources);
    match sets::first(sets::both(start.seen, target)) {
        Some(hit) => start.ended(Some(hit)),
        None => scan(s, owner, bundles, target, start),
    }
}
