// The plan file: commands of one byte with operands of one byte, read into the pool's shelf days, twelve teams with their days, and the
// instruments that are glued to them.
#![tactic(auto)]

ghost use Rattle.std.specs.Prelude.{◌≡◌, ◌≤◌, ◌<◌, length, get_or};
ghost use Rattle.team.specs.Team.{blank_team};
ghost use Rattle.plan.specs.Read.{read_plan, refused, accepted, acceptance, finished};
ghost use Rattle.plan.specs.Progress.{row_at, rows_in, Ended};
ghost use Rattle.sets.specs.Bits.{bit, word};
ghost use Rattle.plan.specs.Teams.{usable, glued, valuation_of, valuations_of, present};
ghost use Rattle.plan.specs.Valid.{Valid};
ghost use Rattle.plan.specs.Worth.{worth_answer, WorthTold};

use command::reader::Reader;
use command::refusal::Refusal;
use command::{State, decode};
use days::Days;
use filled::filled;
use kinds::Valuation;
use step::Ending;
use team::Team;

mod filled;
mod glue;
mod parts;
mod step;
mod usable;

// What reading a file comes to. After a refusal all but its number and place is 0.
// Kept (point 1): the theorems of `read_plan` and `WorthTold` read the number and the place of any reading; `accepted` is the form with Result.
#[derive(Clone, Copy)]
pub struct Reading {
    pub refusal: usize,
    pub place: usize,
    pub m: usize,
    pub n: usize,
    pub teams: [Team; 12],
    // the shelf days of each instrument
    pub shelf: [Days; 64],
    // the days of each team
    pub days: [Days; 12],
    // the team that each instrument is glued to: t + 1 for team t, 255 for none
    pub glue: [u8; 64],
}

impl Reading {
    // Whether the file is accepted, and its refusal where it is not.
    pub fn accepted(&self) -> Result<(), Refusal>
        ensures { result ≡ acceptance self.now }
    {
        if self.refusal != 0 {
            return Err(Refusal {
                number: self.refusal,
                place: self.place,
            });
        }
        Ok(())
    }
}

// The answer to a file that is refused.
fn refuse(refusal: usize, place: usize) -> Reading
    ensures { result ≡ refused refusal place }
{
    let zero = Team {
        kind: 0,
        channels: 0,
        cap: [0u8; 16],
        named: [0u8; 64],
        first: [0u8; 64],
        second: [0u8; 64],
        third: [0u8; 64],
        fourth: [0u8; 64],
        days: [0u8; 5],
    };
    let none = Days { from: 0, to: 0 };
    Reading {
        refusal,
        place,
        m: 0,
        n: 0,
        teams: [zero; 12],
        shelf: [none; 64],
        days: [none; 12],
        glue: [0u8; 64],
    }
}

// The answer to a file that is accepted, by the table of rows.
fn accept(s: State, rows: &[u8]) -> Reading
    requires { (length rows.now ≡ 4802) × (s.n ≤ 12) × (s.m ≤ 64) }
    ensures { result ≡ accepted s (rows_in rows.now s.n) }
{
    let teams = parts::teams(rows, s.n);
    let days = parts::days(rows, s.n);
    let shelf = parts::shelf(&rows[0..row::WIDTH], s.m);
    let glue = parts::glue(rows);
    Reading {
        refusal: 0,
        place: 0,
        m: s.m,
        n: s.n,
        teams,
        shelf,
        days,
        glue,
    }
}

// The answer at the offset of an END that stands in its place.
fn finish(file: &[u8], at: usize, s: State, rows: &[u8]) -> Reading
    requires { (length rows.now ≡ 4802) × (s.n ≤ 12) × (s.m ≤ 64) }
    ensures { result ≡ finished file.now at s (rows_in rows.now s.n) }
{
    if glue::some(&rows[glue::GLUED..glue::GLUED + 64]) && !glue::all_stand(s, rows) {
        return refuse(18, at);
    }
    if at < file.len() && at + 1 < file.len() {
        return refuse(9, at + 1);
    }
    accept(s, rows)
}

// Reads the commands of a file whose first byte is 01 into the table of rows: a reader hands out one after another, until one breaks a rule or is
// an END in its place.
fn read_commands(file: &[u8], rows: &mut [u8]) -> Result<Ending, Refusal>
    requires { (get_or file.now 0 0 ≡ 1) × (length rows.old ≡ 4802) × (row_at rows.old 0 ≡ blank_team) × (row_at rows.old 13 ≡ blank_team) }
    ensures { Ended file.now result rows.new }
{
    let mut reader = Reader::new(file);
    let mut s = carry::nothing();
    loop {
        let at = reader.at;
        let command = reader.next();
        match step::follow(&mut *rows, s, at, command)? {
            Some(next) => s = next,
            None => return Ok(Ending { at, s }),
        }
    }
}

// Reads a plan file.
pub fn read(file: &[u8]) -> Reading
    ensures { result ≡ read_plan file.now }
{
    if decode::byte_at(file, 0) != 1 {
        return refuse(1, 0);
    }
    let mut rows = [255u8; step::TABLE];
    match read_commands(file, &mut rows) {
        Ok(end) => finish(file, end.at, end.s, &rows),
        Err(e) => refuse(e.number, e.place),
    }
}

// The valuation of a team, given the instruments that its days allow and those that are glued to anyone.
fn valuation_of(r: &Reading, t: usize, own: u64, all: u64) -> Valuation
    requires valid { Valid r.now }
    requires team { t < r.now.n }
    requires usable { own ≡ word r.now.m (usable r.now t) }
    requires all { all ≡ word r.now.m (glued r.now) }
    ensures { result ≡ valuation_of r.now t }
{
    Valuation {
        team: r.teams[t],
        usable: sets::minus(own, all),
        glued: glue::of_team(r.glue, r.m, t, all),
    }
}

// The valuation of each team of a plan, and one of no kind beyond the last. Which instruments a team can use and which are glued to it is found
// here, once.
// Kept (point 2): no call of `filled`, which copies the table once more, so that Check would need 4 KB of stack more.
pub fn valuations_of(r: Reading) -> [Valuation; 12]
    requires { Valid r }
    ensures { result ≡ valuations_of r }
{
    let words = usable::words(r.shelf, r.m, r.days, r.n);
    let all = glue::of_all(r.glue, r.m);
    let mut valuations = [kinds::blank(); 12];
    for (t, place) in valuations[..r.n].iter_mut().enumerate() {
        *place = valuation_of(&r, t, words[t], all);
    }
    valuations
}

// The set of the teams of a plan that are present.
pub fn present_of(r: Reading) -> u64
    requires { Valid r }
    ensures { bit result ≡ present r }
{
    sets::those(r.n, |t| r.teams[t].channels > 0)
}

// Worth, on the bytes of a plan: what a set is worth to a team of it.
pub fn worth(file: &[u8], team: usize, set: u64) -> Result<usize, Refusal>
    ensures answer { result ≡ worth_answer file.now team set }
    ensures told { WorthTold file.now team set result }
{
    let r = read(file);
    r.accepted()?;
    if team >= r.n {
        return Ok(0);
    }
    let valuations = valuations_of(r);
    let valuation = valuations[team];
    Ok(kinds::worth_of(valuation, r.m, set))
}
