// The verb `read HEX`: what reading a plan comes to.
use crate::{glue, loan, naming, space};
use days::Days;
use lines::{bytes, runs};
use plan::Reading;
use std::io;
use team::{Kind, NoKind, Team};

// What names each instrument.
fn instruments(rt: &impl Print, t: Team) -> io::Result<()> {
    // Kept (point 3): the five tables of a team are read at one index, which a zip of five does not say as plainly.
    for i in 0..64usize {
        let operands = [t.first[i], t.second[i], t.third[i], t.fourth[i]];
        naming::instrument(rt, i, t.named[i], operands)?;
    }
    Ok(())
}

// A team's kind, by the byte that opens the team.
fn kind(rt: &impl Print, byte: u8) -> io::Result<()> {
    match Kind::try_from(byte) {
        Ok(Kind::Caps) => print!(rt; "; CAPS"),
        Ok(Kind::Loops) => print!(rt; "; LOOPS"),
        Ok(Kind::Mounts) => print!(rt; "; MOUNTS"),
        Err(NoKind(byte)) => print!(rt; "; KIND {byte}"),
    }
}

// A team: its kind and channels, all that its tables hold, whichever kind it is, and its days. Classes in a row with one cap stand together.
fn team(rt: &impl Print, t: Team, d: &Days) -> io::Result<()> {
    kind(rt, t.kind)?;
    print!(rt; " {}", t.channels)?;
    let cap = t.cap;
    runs::show_each(&cap, |run| print!(rt; " {run}"))?;
    instruments(rt, t)?;
    loan::team(rt, t.days, d)
}

// The first n teams, and what stands in the place after them where there is one.
fn teams(rt: &impl Print, n: usize, table: &[Team; 12], days: &[Days; 12]) -> io::Result<()> {
    for (t, d) in table.iter().zip(days).take(n.saturating_add(1)) {
        team(rt, *t, d)?;
    }
    Ok(())
}

// `REFUSED number place`, or `m n`, the shelf days, the glued instruments, and then each team, and the place after the last, after a semicolon.
fn show(rt: &impl Print, r: &Reading) -> io::Result<()> {
    if let Err(refusal) = r.accepted() {
        print!(rt; "{refusal}")?;
        loan::refused(rt, &r.shelf, &r.days)?;
        return glue::refused(rt, &r.glue);
    }
    print!(rt; "{} {}", r.m, r.n)?;
    loan::shelf(rt, &r.shelf)?;
    glue::show(rt, &r.glue)?;
    teams(rt, r.n, &r.teams, &r.days)
}

// Answers the verb.
pub fn answer(rt: &impl Print, hex: &[u8]) -> io::Result<()> {
    let mut space = space::of_plan();
    let r = plan::read(bytes::decoded(hex, &mut space));
    show(rt, &r)
}
