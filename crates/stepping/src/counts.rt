// Sizes and shortfall: those that a holding carries and, behind `|`, those that a count of its owners made here comes to. Printed are the sizes
// of the teams, and then `short` and the shortfall: ` [1 0 2 short 3 | 1 0 2 short 3]`, and ` [short 0 | short 0]` where there is no team. A size
// that is carried beyond the last team is 0, and would be printed too where it is not.
ghost use Rattle.std.specs.Prelude.{◌≤◌};

use holding::Holding;
use std::io;

// How many of m instruments have the owner t.
fn size(owner: &[u8; 64], m: usize, t: usize) -> usize
    ensures { result ≤ 64 }
{
    owner
        .iter()
        .take(m)
        .filter(|place| usize::from(**place) == t)
        .count()
}

// What all teams lack of their shares.
fn shortfall(h: Holding) -> usize {
    let owner = h.owner;
    let shares = h.shares;
    let mut sum: usize = 0;
    for (t, share) in lines::front(&shares, h.n).iter().enumerate() {
        sum += usize::from(*share).saturating_sub(size(&owner, h.m, t));
    }
    sum
}

// Prints what the holding carries.
fn carried(rt: &impl Print, h: Holding) -> io::Result<()> {
    let sizes = h.sizes;
    for (t, size) in sizes.iter().enumerate() {
        if t < h.n || *size != 0 {
            print!(rt; "{size} ")?;
        }
    }
    print!(rt; "short {}", h.shortfall)
}

// Prints what the count comes to.
fn counted(rt: &impl Print, h: Holding) -> io::Result<()> {
    let owner = h.owner;
    for t in 0..h.n.min(12) {
        print!(rt; "{} ", size(&owner, h.m, t))?;
    }
    print!(rt; "short {}", shortfall(h))
}

// Prints both.
pub fn show(rt: &impl Print, h: Holding) -> io::Result<()> {
    print!(rt; " [")?;
    carried(rt, h)?;
    print!(rt; " | ")?;
    counted(rt, h)?;
    print!(rt; "]")
}
