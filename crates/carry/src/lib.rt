// What a command that breaks no rule changes.
#![tactic(auto)]

ghost use Rattle.std.specs.Prelude.{◌≡◌, ◌≤◌, length};
ghost use Rattle.command.specs.declared.Command.TheVariants.{Caps, Class, Days};
ghost use Rattle.carry.specs.Carry.{start, named_team, row_of, changed_team, changed_state};
ghost use Rattle.row.specs.Row.{row_team};

use command::{Command, State};
use team::Kind;

// Nothing has been read yet.
pub fn nothing() -> State
    ensures { result ≡ start }
{
    State {
        m: 0,
        n: 0,
        capped: [false; 16],
    }
}

// Caps a class of the open team.
fn set_cap(row: &mut [u8], class: u8, cap: u8)
    requires { length row.old ≡ 343 }
    ensures { row_team row.new ≡ changed_team 0 (row_team row.old) (Class class cap) }
{
    if class < 16 {
        row[row::CAP + usize::from(class)] = cap;
    }
}

// Names an instrument in the open row: the byte of the command, and its operands after the instrument (255 where it has fewer).
// Kept (point 5): the operands go one by one, as `Command` and `named_team` have them; each goes into a table of its own.
fn set_named(row: &mut [u8], instrument: u8, command: u8, a: u8, b: u8, c: u8, d: u8)
    requires { length row.old ≡ 343 }
    ensures { row_team row.new ≡ named_team (row_team row.old) instrument command a b c d }
{
    if instrument < 64 {
        let i = usize::from(instrument);
        row[row::NAMED + i] = command;
        row[row::FIRST + i] = a;
        row[row::SECOND + i] = b;
        row[row::THIRD + i] = c;
        row[row::FOURTH + i] = d;
    }
}

// Says the days of the open team: the byte of the command, and its operands.
fn set_days(row: &mut [u8], a: u8, b: u8, c: u8, d: u8)
    requires { length row.old ≡ 343 }
    ensures { row_team row.new ≡ changed_team 0 (row_team row.old) (Days a b c d) }
{
    row[row::DAYS..row::WIDTH].copy_from_slice(&[11, a, b, c, d]);
}

// The row that a command works on, where n teams have been opened.
pub fn row_of(n: usize, command: Command) -> usize
    ensures { result ≡ row_of n command }
{
    match command {
        Command::Glue(_) => 13,
        _ => n,
    }
}

// Changes the row that a command works on, where n teams have been opened, this one included. A team that the command opens takes the place of
// what the row held.
// Kept (point 1): a row has the bytes of commands, which `changed_team` names by their numbers.
#[tactic(auto, unfolding(crate::specs::Carry::changed_team))]
pub fn change(row: &mut [u8], n: usize, command: Command)
    requires { (length row.old ≡ 343) × (n ≤ 12) }
    ensures { row_team row.new ≡ changed_team n (row_team row.old) command }
{
    match command {
        Command::Caps(channels) => row::open(row, Kind::Caps.into(), channels, 0),
        Command::Loops(channels) => row::open(row, Kind::Loops.into(), channels, 255),
        Command::Mounts(channels) => row::open(row, Kind::Mounts.into(), channels, 255),
        Command::Class(class, cap) => set_cap(row, class, cap),
        Command::Put(i, class) => set_named(row, i, 5, class, 255, 255, 255),
        Command::Span(i, a, b) => set_named(row, i, 6, a, b, 255, 255),
        Command::Fit(i, a, b, c, d) => set_named(row, i, 9, a, b, c, d),
        Command::Shelf(i, a, b, c, d) => set_named(row, i, 10, a, b, c, d),
        Command::Days(a, b, c, d) => set_days(row, a, b, c, d),
        Command::Glue(i) => set_named(row, i, n as u8, 255, 255, 255, 255),
        _ => {}
    }
}

// The state in which a team has just been opened.
fn next_team(mut s: State) -> State
    requires { s.n ≤ 12 }
    ensures { result ≡ changed_state s (Caps 0) }
{
    s.n += 1;
    s.capped = [false; 16];
    s
}

// The state in which a class is capped.
fn with_capped(mut s: State, class: u8) -> State
    ensures { result ≡ changed_state s (Class class 0) }
{
    let at = usize::from(class);
    if at < 16 {
        s.capped[at] = true;
    }
    s
}

// The rest of the state after a command.
// Kept (point 4): with one arm for the other commands Read takes twice the instructions (decision 41).
#[tactic(auto, unfolding(crate::specs::Carry::changed_state))]
pub fn changed_state(mut s: State, command: Command) -> State
    requires { s.n ≤ 12 }
    ensures { result ≡ changed_state s command }
{
    match command {
        Command::Missing => s,
        Command::Unknown => s,
        Command::Short => s,
        Command::Start(_, m) => {
            s.m = usize::from(m);
            s
        }
        Command::Caps(_) => next_team(s),
        Command::Loops(_) => next_team(s),
        Command::Mounts(_) => next_team(s),
        Command::Class(class, _) => with_capped(s, class),
        Command::Put(_, _) => s,
        Command::Span(_, _, _) => s,
        Command::Fit(_, _, _, _, _) => s,
        Command::Shelf(_, _, _, _, _) => s,
        Command::Days(_, _, _, _) => s,
        Command::Glue(_) => s,
        Command::End => s,
    }
}
