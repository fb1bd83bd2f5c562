// CAPS: a class holds at most its cap. The members of a set are counted by class.
// Kept (point 5): m ≤ 64 stands in each contract, as in `kinds`.
#![tactic(auto)]

ghost use Rattle.std.specs.Prelude.{◌≡◌, ◌<◌, ◌≤◌, MatchOption};
ghost use Rattle.matroid.specs.Matroid.{worth};
ghost use Rattle.sets.specs.Bits.{bit};
ghost use Rattle.sets.specs.Joining.{MayJoin, Grown};
ghost use Rattle.caps.specs.Counts.{Counts, HasRoom, Room, capped_sum};
ghost use Rattle.caps.specs.Partition.{class_in, caps_of};

// How many members of a set below m each class has.
fn class_counts(class: &[u8; 64], m: usize, set: u64) -> [u8; 16]
    requires { m ≤ 64 }
    ensures { Counts class.now m (bit set) result }
{
    let mut counts = [0u8; 16];
    for g in sets::members(sets::both(set, sets::all_below(m))) {
        let c = usize::from(class[g]);
        if c < 16 {
            counts[c] += 1;
        }
    }
    counts
}

// The members of each class, at most its cap, added up.
fn capped_sum(counts: &[u8; 16], cap: &[u8; 16]) -> usize
    ensures { result ≡ capped_sum counts.now cap.now 16 }
{
    let mut total = 0;
    for (c, &most) in cap.iter().enumerate() {
        total += usize::from(most.min(counts[c]));
    }
    total
}

// What a set is worth by the class of each instrument and the cap of each class. Members at or above m are passed over.
pub fn worth(class: [u8; 64], cap: [u8; 16], m: usize, set: u64) -> usize
    requires { m ≤ 64 }
    ensures { result ≡ worth (caps_of m class cap) (bit set) }
{
    capped_sum(&class_counts(&class, m, set), &cap)
}

// The class of an instrument, where it is in one that has fewer members than its cap.
fn open_class(class: &[u8; 64], cap: &[u8; 16], counts: &[u8; 16], g: usize) -> Option<usize>
    requires { g < 64 }
    ensures { MatchOption result (HasRoom class.now cap.now counts.now g → ⊥) (λ c. (c ≡ class_in class.now g) × HasRoom class.now cap.now counts.now g) }
{
    let c = usize::from(class[g]);
    if c < 16 && counts[c] < cap[c] {
        Some(c)
    } else {
        None
    }
}

// The instruments below m of the classes that have fewer members than their caps.
fn with_room(class: &[u8; 64], cap: &[u8; 16], counts: &[u8; 16], m: usize) -> u64
    requires { m ≤ 64 }
    ensures { Room class.now cap.now counts.now m result }
{
    sets::those(m, |g| open_class(class, cap, counts, g).is_some())
}

// The instruments below m, outside an independent set, that keep it independent.
pub fn gains(class: [u8; 64], cap: [u8; 16], m: usize, set: u64) -> u64
    requires { m ≤ 64 }
    ensures { (caps_of m class cap).Indep (bit set) → MayJoin (caps_of m class cap) (bit set) result }
{
    let counts = class_counts(&class, m, set);
    sets::minus(with_room(&class, &cap, &counts, m), set)
}

// An independent set with members of another, at most so many more.
pub fn grown(class: [u8; 64], cap: [u8; 16], m: usize, set: u64, from: u64, most: usize) -> u64
    requires { m ≤ 64 }
    ensures { Grown (caps_of m class cap) set from most result }
{
    let mut counts = class_counts(&class, m, set);
    let mut larger = set;
    let mut room = most;
    for g in sets::members(sets::candidates(m, set, from)) {
        if room == 0 {
            break;
        }
        if let Some(k) = open_class(&class, &cap, &counts, g) {
            counts[k] += 1;
            larger = sets::with(larger, g);
            room -= 1;
        }
    }
    larger
}
