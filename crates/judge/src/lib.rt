// Which rule a command breaks first, by the state and the row that the command works on: the open team's, and for GLUE that of the glued
// instruments.
#![tactic(auto, unfolding(row::specs::Row::row_team))]

ghost use Rattle.std.specs.Prelude.{◌≡◌, length};
ghost use Rattle.judge.specs.Broken.{broken};
ghost use Rattle.judge.specs.Fault.{fault, start_rules, team_rules, class_rules, put_rules, span_rules, fit_rules, shelf_rules, days_rules, glue_rules, end_rules, is_end, named};
ghost use Rattle.days.specs.Days.{day_of};
ghost use Rattle.row.specs.Row.{part, row_team};
ghost use Rattle.command.specs.Rule.{first_broken};

use command::{Command, State};
pub use fault::Fault;
use fault::rule;
use team::Kind;

mod fault;

// START: at the file's start, version 1, at most 64 instruments.
fn start_fault(at: usize, version: u8, m: u8) -> Result<(), Fault>
    ensures { broken result ≡ first_broken 0 (start_rules at version m) }
{
    rule(at != 0, Fault::Misplaced)?;
    rule(version != 1, Fault::OutOfRange)?;
    rule(m > 64, Fault::OutOfRange)
}

// CAPS, LOOPS and MOUNTS: at most twelve teams.
fn team_fault(s: State) -> Result<(), Fault>
    ensures { broken result ≡ first_broken 0 (team_rules s) }
{
    rule(s.n >= 12, Fault::TooManyTeams)
}

// CLASS: in a CAPS team, a class below 16, capped once.
fn class_fault(s: State, kind: u8, class: u8) -> Result<(), Fault>
    ensures { broken result ≡ first_broken 0 (class_rules s kind class) }
{
    rule(kind != u8::from(Kind::Caps), Fault::Misplaced)?;
    rule(class >= 16, Fault::OutOfRange)?;
    rule(s.capped[class as usize], Fault::Repeated)
}

// PUT: in a CAPS team, an instrument below m, a class below 16, named once.
fn put_fault(row: &[u8], s: State, instrument: u8, class: u8) -> Result<(), Fault>
    requires { length row.now ≡ 343 }
    ensures { broken result ≡ first_broken 0 (put_rules s (row_team row.now) instrument class) }
{
    let i = instrument as usize;
    rule(row[0] != u8::from(Kind::Caps), Fault::Misplaced)?;
    rule(i >= s.m, Fault::OutOfRange)?;
    rule(class >= 16, Fault::OutOfRange)?;
    rule(named(row, i), Fault::Repeated)
}

// SPAN: in a LOOPS team, an instrument below m, two different joints, named once.
#[tactic(auto, unfolding(row::specs::Row::row_team, team::specs::Team::joints))]
fn span_fault(row: &[u8], s: State, instrument: u8, a: u8, b: u8) -> Result<(), Fault>
    requires { length row.now ≡ 343 }
    ensures { broken result ≡ first_broken 0 (span_rules s (row_team row.now) instrument a b) }
{
    let i = instrument as usize;
    rule(row[0] != u8::from(Kind::Loops), Fault::Misplaced)?;
    rule(i >= s.m, Fault::OutOfRange)?;
    rule(a as usize >= team::JOINTS, Fault::OutOfRange)?;
    rule(b as usize >= team::JOINTS, Fault::OutOfRange)?;
    rule(a == b, Fault::EqualJoints)?;
    rule(named(row, i), Fault::Repeated)
}

// FIT: in a MOUNTS team, an instrument below m, named once.
fn fit_fault(row: &[u8], s: State, instrument: u8) -> Result<(), Fault>
    requires { length row.now ≡ 343 }
    ensures { broken result ≡ first_broken 0 (fit_rules s (row_team row.now) instrument) }
{
    let i = instrument as usize;
    rule(row[0] != u8::from(Kind::Mounts), Fault::Misplaced)?;
    rule(i >= s.m, Fault::OutOfRange)?;
    rule(named(row, i), Fault::Repeated) // also after a FIT with no bits
}

// SHELF: before any team, an instrument below m, days that are in order, one for each instrument.
fn shelf_fault(
    row: &[u8],
    s: State,
    instrument: u8,
    a: u8,
    b: u8,
    c: u8,
    d: u8,
) -> Result<(), Fault>
    requires { length row.now ≡ 343 }
    ensures { broken result ≡ first_broken 0 (shelf_rules s (row_team row.now) instrument (day_of a b) (day_of c d)) }
{
    let i = instrument as usize;
    rule(s.n != 0, Fault::Misplaced)?;
    rule(i >= s.m, Fault::OutOfRange)?;
    rule(days::not_below(a, b, c, d), Fault::Unordered)?;
    rule(named(row, i), Fault::Repeated)
}

// DAYS: in a team of any kind, days that are in order, one for each team.
#[tactic(auto, using(crate::proofs::Naming::days_byte), unfolding(row::specs::Row::row_team))]
fn days_fault(row: &[u8], s: State, a: u8, b: u8, c: u8, d: u8) -> Result<(), Fault>
    requires { length row.now ≡ 343 }
    ensures { broken result ≡ first_broken 0 (days_rules s (row_team row.now) (day_of a b) (day_of c d)) }
{
    rule(s.n == 0, Fault::Misplaced)?;
    rule(days::not_below(a, b, c, d), Fault::Unordered)?;
    rule(row[row::DAYS] != 255, Fault::Repeated)
}

// GLUE: in a team of any kind, an instrument below m, glued once in all teams.
fn glue_fault(row: &[u8], s: State, instrument: u8) -> Result<(), Fault>
    requires { length row.now ≡ 343 }
    ensures { broken result ≡ first_broken 0 (glue_rules s (row_team row.now) instrument) }
{
    let i = instrument as usize;
    rule(s.n == 0, Fault::Misplaced)?;
    rule(i >= s.m, Fault::OutOfRange)?;
    rule(named(row, i), Fault::Repeated) // in this team or an earlier one
}

// END: after a team.
fn end_fault(s: State) -> Result<(), Fault>
    ensures { broken result ≡ first_broken 0 (end_rules s) }
{
    rule(s.n == 0, Fault::Misplaced)
}

// The first rule that a command breaks, given the row that it works on.
#[tactic(auto, unfolding(crate::specs::Fault::fault, row::specs::Row::row_team))]
pub fn fault_of(row: &[u8], at: usize, s: State, command: Command) -> Result<(), Fault>
    requires { length row.now ≡ 343 }
    ensures { broken result ≡ fault at s (row_team row.now) command }
{
    match command {
        Command::Missing => Err(Fault::Cut),
        Command::Unknown => Err(Fault::Unknown),
        Command::Short => Err(Fault::Cut),
        Command::Start(version, m) => start_fault(at, version, m),
        Command::Caps(_) | Command::Loops(_) | Command::Mounts(_) => team_fault(s),
        Command::Class(class, _) => class_fault(s, row[0], class),
        Command::Put(i, class) => put_fault(row, s, i, class),
        Command::Span(i, a, b) => span_fault(row, s, i, a, b),
        Command::Fit(i, ..) => fit_fault(row, s, i),
        Command::Shelf(i, a, b, c, d) => shelf_fault(row, s, i, a, b, c, d),
        Command::Days(a, b, c, d) => days_fault(row, s, a, b, c, d),
        Command::Glue(i) => glue_fault(row, s, i),
        Command::End => end_fault(s),
    }
}

// Whether the command is END.
pub fn is_end(command: Command) -> bool
    ensures { result ≡ is_end command }
{
    matches!(command, Command::End)
}

// Whether a command names an instrument in a row.
fn named(row: &[u8], i: usize) -> bool
    requires { length row.now ≡ 343 }
    ensures { result ≡ named (part row.now 18 64) i }
{
    i < 64 && row[row::NAMED + i] != 255
}
