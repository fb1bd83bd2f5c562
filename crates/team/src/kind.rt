// The kinds of team, and the byte that opens a team of each.
ghost use Rattle.std.specs.Prelude.{◌≡◌};
ghost use Rattle.team.specs.Kinds.{byte_of, Opens};

// A team's kind.
#[derive(Clone, Copy, PartialEq, Eq)]
pub enum Kind {
    Caps,
    Loops,
    Mounts,
}

// A byte that opens no team.
#[derive(Clone, Copy, PartialEq, Eq)]
pub struct NoKind(pub u8);

// The byte that opens a team of a kind.
impl From<Kind> for u8 {
    ghost from_gives = { λ kind byte. byte ≡ byte_of kind };

    fn from(kind: Kind) -> u8 {
        match kind {
            Kind::Caps => 2,
            Kind::Loops => 3,
            Kind::Mounts => 8,
        }
    }
}

// The kind of team that a byte opens.
impl TryFrom<u8> for Kind {
    type Error = NoKind;

    ghost try_from_gives = { Opens };

    fn try_from(byte: u8) -> Result<Kind, NoKind> {
        match byte {
            2 => Ok(Kind::Caps),
            3 => Ok(Kind::Loops),
            8 => Ok(Kind::Mounts),
            _ => Err(NoKind(byte)),
        }
    }
}
