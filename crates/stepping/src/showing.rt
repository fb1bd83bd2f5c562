// The answer to a step: SAME where it handed back the holding as it was, and else the holding that it handed back, written as a case starts:
// m, n, and the owners in runs, those of 255 left out; then ` /` and the shares to the last that is not 0, and nothing where all are. The sizes and
// the shortfall of what it handed back stand behind both.
use crate::counts;
use holding::Holding;
use lines::runs;
use std::io;

// Prints all 64 owners, whatever m is.
fn owners(rt: &impl Print, owner: &[u8; 64]) -> io::Result<()> {
    runs::show_each(owner, |run| match run.byte {
        255 => Ok(()),
        _ => print!(rt; " {run}"),
    })
}

// Prints the shares, whatever n is.
fn shares(rt: &impl Print, shares: &[u8; 12]) -> io::Result<()> {
    let written = lines::unchanged_from(shares, 0);
    for (t, share) in shares.iter().take(written).enumerate() {
        if t == 0 {
            print!(rt; " /")?;
        }
        print!(rt; " {share}")?;
    }
    Ok(())
}

// Prints a holding.
fn holding(rt: &impl Print, h: Holding) -> io::Result<()> {
    print!(rt; "{} {}", h.m, h.n)?;
    let owner = h.owner;
    owners(rt, &owner)?;
    let listed = h.shares;
    shares(rt, &listed)
}

// Prints the answer, by the holdings before and after the step.
pub fn answer(rt: &impl Print, before: Holding, after: Holding) -> io::Result<()> {
    if before == after {
        print!(rt; "SAME")?;
    } else {
        holding(rt, after)?;
    }
    counts::show(rt, after)
}
