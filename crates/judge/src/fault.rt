// What a command can break.
ghost use Rattle.std.specs.Prelude.{◌≡◌};
ghost use Rattle.judge.specs.Broken.{numbered, held};

// A fault of a command, named by what is broken.
#[derive(Clone, Copy, PartialEq, Eq)]
pub enum Fault {
    // The file ends before the command, or before its last operand.
    Cut,
    // The byte is no command's.
    Unknown,
    // The command does not belong there.
    Misplaced,
    // An operand is out of its range.
    OutOfRange,
    // The same has been said before.
    Repeated,
    // It would be the thirteenth team.
    TooManyTeams,
    // The two joints are equal.
    EqualJoints,
    // The days are not in order.
    Unordered,
}

// The papers' number of a fault.
impl From<Fault> for usize {
    ghost from_gives = { λ fault number. number ≡ numbered fault };

    fn from(fault: Fault) -> usize {
        match fault {
            Fault::Cut => 2,
            Fault::Unknown => 3,
            Fault::Misplaced => 4,
            Fault::OutOfRange => 5,
            Fault::Repeated => 6,
            Fault::TooManyTeams => 7,
            Fault::EqualJoints => 8,
            Fault::Unordered => 17,
        }
    }
}

// One rule: its fault where it is broken.
pub fn rule(broken: bool, fault: Fault) -> Result<(), Fault>
    ensures { result ≡ held broken fault }
{
    if broken { Err(fault) } else { Ok(()) }
}
