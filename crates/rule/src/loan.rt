// Loan days by the words of note 4: "An instrument can be in a team's independent set only if the team's days lie within its shelf days". The
// SHELFs stand in a team of their own, the pool's, which names an instrument by the byte of SHELF and the four bytes of its days.
ghost use Rattle.std.specs.Prelude.{◌≡◌, ◌<◌, ◌≤◌, ◌/◌, ◌%◌, ◌∷◌, [], slice_index, slice_set};

use team::Team;

// The bytes of the commands with days: of an instrument, and of a team.
pub const SHELF: u8 = 10;

pub const DAYS: u8 = 11;

// Days: "from is included, to is not".
#[derive(Clone, Copy)]
pub struct Loan {
    pub from: u64,
    pub to: u64,
}

impl Loan {
    // The days of a command, by its byte and the four bytes of its days, the low byte of each first: "Without a SHELF or DAYS the days are 0 to
    // 65,535".
    fn named(command: [u8; 5]) -> Loan {
        match command {
            [255, ..] => Loan { from: 0, to: 65535 },
            [_, a, b, c, d] => Loan {
                from: u64::from(u16::from_le_bytes([a, b])),
                to: u64::from(u16::from_le_bytes([c, d])),
            },
        }
    }

    // The days of a team.
    pub fn of_team(team: &Team) -> Loan {
        Loan::named(team.days)
    }

    // The shelf days of an instrument.
    pub fn of_instrument(pool: &Team, g: usize) -> Loan
        requires { g < 64 }
    {
        Loan::named(super::naming(pool, g))
    }

    // Whether a day is one of these days.
    fn has(self, day: u64) -> bool {
        (self.from..self.to).contains(&day)
    }

    // Whether these days lie within shelf days: the first of them and the last are shelf days.
    pub fn within(self, shelf: Loan) -> bool {
        shelf.has(self.from) && shelf.has(self.to.wrapping_sub(1))
    }
}

// A command with its days, by its byte, and none where from is not below to.
pub fn command(byte: u8, from: u16, to: u16) -> [u8; 5]
    ensures days { from < to → result ≡ byte ∷ from % 256 ∷ from / 256 ∷ to % 256 ∷ to / 256 ∷ [] }
    ensures none { to ≤ from → result ≡ 255 ∷ 255 ∷ 255 ∷ 255 ∷ 255 ∷ [] }
{
    if from >= to {
        return [255; 5];
    }
    let [a, b] = from.to_le_bytes();
    let [c, d] = to.to_le_bytes();
    [byte, a, b, c, d]
}

// Puts the SHELF of an instrument into the pool.
pub fn put_shelf(pool: &mut Team, g: usize, command: [u8; 5])
    requires { g < 64 }
    ensures { pool.new ≡ record pool.old {
      named = slice_set pool.old.named g (slice_index command 0);
      first = slice_set pool.old.first g (slice_index command 1);
      second = slice_set pool.old.second g (slice_index command 2);
      third = slice_set pool.old.third g (slice_index command 3);
      fourth = slice_set pool.old.fourth g (slice_index command 4);
    } }
{
    let [named, first, second, third, fourth] = command;
    pool.named[g] = named;
    pool.first[g] = first;
    pool.second[g] = second;
    pool.third[g] = third;
    pool.fourth[g] = fourth;
}

// The instruments that a team can use on its days.
pub fn usable(pool: &Team, team: &Team) -> u64 {
    let own = Loan::of_team(team);
    sets::those(64, |g| own.within(Loan::of_instrument(pool, g)))
}
