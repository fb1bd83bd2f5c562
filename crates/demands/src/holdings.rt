// Give, return and chain, each called on a holding where sizes and shortfall are right.
ghost use Rattle.std.specs.Prelude.{◌≡◌};
ghost use Rattle.holding.specs.Count.{Right};
ghost use Rattle.holding.specs.Give.{holder_of, all_in_pool};
ghost use Rattle.demands.specs.Holdings.{Gives, Returns, Chains};

use holding::{Holding, Moves};

// The holding with every instrument in the pool is made with both right.
pub fn empty(m: usize, n: usize, shares: [u8; 12]) -> Holding
    ensures made { result ≡ all_in_pool m n shares }
    ensures right { Right result }
{
    Holding::empty(m, n, shares)
}

// Give.
pub fn give(h: Holding, g: usize, t: usize) -> Holding
    requires { Right h }
    ensures { Gives h g t result }
{
    h.give(g, t)
}

// Return.
pub fn give_back(h: Holding, g: usize) -> Holding
    requires { Right h }
    ensures { Returns h g result }
{
    h.give_back(g)
}

// A return after a give restores the holding, where the instrument stood in the pool.
pub fn give_and_return(h: Holding, g: usize, t: usize) -> Holding
    requires { Right h }
    ensures { holder_of h g ≡ 255 → result ≡ h }
{
    h.give(g, t).give_back(g)
}

// Chain.
pub fn chain(h: Holding, moves: Moves) -> Holding
    requires { Right h }
    ensures { Chains h moves result }
{
    h.chain(moves)
}
