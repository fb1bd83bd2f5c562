// Tables with an entry for each team or each instrument.
ghost use Rattle.std.specs.Prelude.{◌≤◌, ◌<◌, ℕ};
ghost use Rattle.plan.specs.Entries.{Entries};

// The table whose first n entries a function gives, with one entry for all the others.
pub fn filled<T: Copy, const N: usize, F: Fn(usize) -> T>(n: usize, rest: T, entry: F) -> [T; N]
    requires small { n ≤ N }
    requires callable { (i : ℕ) → i < n → F.pre entry i }
    ensures { Entries N n rest (F.post entry) result }
{
    let mut table = [rest; N];
    for (i, place) in table[..n].iter_mut().enumerate() {
        *place = entry(i);
    }
    table
}
