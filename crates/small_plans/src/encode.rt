// A drawn plan as the bytes of a plan file.
use crate::draw::{Member, SmallPlan};
use rule::loan::{DAYS, SHELF};
use team::{Kind, Team};

// The bytes of a plan file so far. A drawn plan has 155 at most; a full space takes no byte more.
// Kept (point 6): no Vec, which can run out of memory: what encodes a plan cannot fail.
#[derive(Clone, Copy)]
pub struct Encoded {
    space: [u8; 160],
    length: usize,
}

impl Encoded {
    // The bytes.
    pub fn bytes(&self) -> &[u8] {
        &self.space[..self.length.min(160)]
    }

    // Puts bytes after the others.
    fn put(&mut self, bytes: &[u8]) {
        for byte in bytes {
            if let Some(place) = self.space.get_mut(self.length) {
                *place = *byte;
                self.length += 1;
            }
        }
    }
}

// A CLASS for each of classes 0 to 3.
fn classes(out: &mut Encoded, team: &Team) {
    for (class, cap) in (0..4).zip(&team.cap) {
        out.put(&[4, class, *cap]);
    }
}

// A PUT for each of m instruments that is in a class.
fn puts(out: &mut Encoded, m: usize, team: &Team) {
    for (g, class) in (0..64).zip(&team.first).take(m) {
        if *class < 16 {
            out.put(&[5, g, *class]);
        }
    }
}

// A SPAN for each of m instruments that has joints.
fn spans(out: &mut Encoded, m: usize, team: &Team) {
    for (g, (a, b)) in (0..64).zip(team.first.iter().zip(&team.second)).take(m) {
        if *a < rule::JOINTS {
            out.put(&[6, g, *a, *b]);
        }
    }
}

// A FIT for each instrument of a plan that a FIT names, or a SHELF, by the byte of the command.
fn fits(out: &mut Encoded, plan: &SmallPlan, team: &Team, command: u8) {
    for g in 0..plan.m {
        let [named, a, b, c, d] = rule::naming(team, g);
        if named == command {
            out.put(&[command, g as u8, a, b, c, d]);
        }
    }
}

// The DAYS of a team that has one.
fn days(out: &mut Encoded, team: &Team) {
    if team.days[0] == DAYS {
        out.put(&team.days);
    }
}

// A GLUE for each of m instruments that is in a set.
fn glues(out: &mut Encoded, m: usize, glued: u64) {
    for g in sets::members(glued).filter(|g| *g < m) {
        out.put(&[12, g as u8]);
    }
}

// What names the instruments of a team.
fn instruments(out: &mut Encoded, plan: &SmallPlan, team: &Team) {
    match Kind::try_from(team.kind) {
        Ok(Kind::Caps) => {
            classes(out, team);
            puts(out, plan.m, team);
        }
        Ok(Kind::Loops) => spans(out, plan.m, team),
        _ => fits(out, plan, team, 9),
    }
}

// A team with its glued instruments. Where its channels are even its DAYS comes first and its GLUEs last, and else its GLUEs come first.
fn member(out: &mut Encoded, plan: &SmallPlan, member: &Member) {
    let team = &member.team;
    out.put(&[team.kind, team.channels]);
    if team.channels % 2 == 0 {
        days(out, team);
        instruments(out, plan, team);
        glues(out, plan.m, member.glued);
    } else {
        glues(out, plan.m, member.glued);
        instruments(out, plan, team);
        days(out, team);
    }
}

// A whole plan.
pub fn plan(d: &SmallPlan) -> Encoded {
    let mut out = Encoded {
        space: [0; 160],
        length: 0,
    };
    out.put(&[1, 1, d.m as u8]);
    fits(&mut out, d, &d.pool, SHELF);
    for one in d.teams() {
        member(&mut out, d, one);
    }
    out.put(&[7]);
    out
}
