// The division that a sheet states: what the teams hold, and the bound of BOUND's set.
// Kept (point 5): m ≤ 64 and n ≤ 12 stand in each contract, as in `sheet`.
ghost use Rattle.std.specs.Prelude.{◌≡◌, ℕ, ◌≤◌, length};
ghost use Rattle.matroid.specs.Set.{size};
ghost use Rattle.matroid.specs.Division.{held};
ghost use Rattle.sets.specs.Bundles.{Bundles};
ghost use Rattle.kinds.specs.Valuations.{matroids};
ghost use Rattle.checker.specs.Rules.{found, dependent_at, bound_of};

use kinds::Valuation;

// The lowest team whose bundle is not independent.
pub fn first_dependent(
    valuations: [Valuation; 12],
    m: usize,
    n: usize,
    bundles: [u64; 12],
) -> Option<usize>
    requires { (m ≤ 64) × (n ≤ 12) × (length valuations ≡ 12) }
    ensures { (D : ℕ → ℕ) → Bundles m D bundles → result ≡ found n (dependent_at n (matroids m valuations) D) }
{
    valuations[..n].iter().zip(&bundles[..n]).position(|(v, held)| kinds::worth_of(*v, m, *held)
        != sets::size(*held))
}

// How many instruments the first n teams hold.
pub fn given(bundles: [u64; 12], n: usize) -> usize
    requires { n ≤ 12 }
    ensures { (m : ℕ) (D : ℕ → ℕ) → m ≤ 64 → Bundles m D bundles → result ≡ size m (held n D) }
{
    let mut count: usize = 0;
    for bundle in &bundles[..n] {
        count += sets::size(*bundle);
    }
    count
}

// The instruments outside a set, and what the set is worth to each team.
pub fn bound(valuations: [Valuation; 12], m: usize, n: usize, set: u64) -> usize
    requires { (m ≤ 64) × (n ≤ 12) × (length valuations ≡ 12) }
    ensures { result ≡ bound_of n (matroids m valuations) set }
{
    let mut sum = sets::outside(m, set);
    for valuation in &valuations[..n] {
        sum += kinds::worth_of(*valuation, m, set);
    }
    sum
}
