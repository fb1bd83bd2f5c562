// The verb `divide HEX`: the division of a plan as the weekly listing shows it.
use command::refusal::Refusal;
use engine::divide::Division;
use exchange::Agents;
use lines::bytes;
use std::io;

// The instruments that a table places with p, rising, each after a space.
fn placed(rt: &impl Print, owner: &[u8], p: usize) -> io::Result<()> {
    for (g, place) in owner.iter().enumerate() {
        if usize::from(*place) == p {
            print!(rt; " {g}")?;
        }
    }
    Ok(())
}

// The whole listing of a division: the total, which counts the instruments that are not in the pool, a line for each team, and the pool.
fn show(rt: &impl Print, division: &Division) -> io::Result<()> {
    let holding = division.holding;
    let owner = lines::front(&holding.owner, holding.m);
    let total = owner.iter().filter(|place| **place != 255).count();
    print!(rt; "TOTAL {total}")?;
    for (t, shared) in division.shares.iter().enumerate().take(holding.n) {
        print!(rt; "\nTEAM {t} SHARE {} HOLDS", shared.share)?;
        placed(rt, owner, t)?;
    }
    print!(rt; "\nPOOL")?;
    placed(rt, owner, 255)
}

// The division of a plan.
fn division(file: &[u8]) -> Result<Division, Refusal> {
    let r = plan::read(file);
    r.accepted()?;
    let agents = Agents {
        m: r.m,
        n: r.n,
        valuations: plan::valuations_of(r),
    };
    Ok(engine::divide::divide(agents, plan::present_of(r)))
}

// Answers the verb.
pub fn answer(rt: &impl Print, hex: &[u8]) -> io::Result<()> {
    let mut space = [0u8; 4096];
    match division(bytes::decoded(hex, &mut space)) {
        Ok(division) => show(rt, &division),
        Err(refusal) => print!(rt; "{refusal}"),
    }
}
