// The verb `gained HEX`: a count of instruments, a kind, three sets of eight bytes, which are the set, the instruments glued to the team and those
// glued to others, and then commands as a plan has them. Worth and gains stand beside those by the note's words, from the crate `rule`.
use crate::beside;
use crate::chosen::{count, set_at, team};
use crate::draw::Case;
use kinds::Valuation;
use lines::bytes;
use rule::glue::Site;
use std::io;

// The team of the commands with its glued instruments; all bits below 64 are usable.
fn site(bytes: &[u8]) -> Site {
    let own = set_at(bytes, 10);
    Site {
        team: team(bytes, 26),
        usable: u64::MAX,
        own,
        anyone: sets::either(own, set_at(bytes, 18)),
    }
}

// Answers the verb, and by 18 where the glued instruments of the team do not stand. Every instrument below m is on the shelf for the team's days.
pub fn answer(rt: &impl Print, hex: &[u8]) -> io::Result<()> {
    let mut space = [0; 4096];
    let bytes = bytes::decoded(hex, &mut space);
    let m = count(bytes);
    let site = site(bytes);
    if !site.stands() {
        return print!(rt; "18");
    }
    let usable = sets::minus(sets::all_below(m), site.anyone);
    let case = Case {
        valuation: Valuation {
            team: site.team,
            usable,
            glued: site.own,
        },
        m,
        set: set_at(bytes, 2),
        usable,
    };
    beside::show(rt, &site, &case)
}
