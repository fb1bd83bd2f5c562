// The pieces of a text that a byte ends: lines, the words of a line, the steps of a case.
ghost use Rattle.std.specs.Prelude.{◌≡◌, length};
ghost use Rattle.std.specs.Iterator.{at_most};
ghost use Rattle.lines.specs.Pieces.{GivesPiece};

// The pieces that are still to come, without the byte that ends them. The last one may do without it.
#[derive(Clone, Copy)]
pub struct Pieces<'a> {
    rest: &'a [u8],
    end: u8,
}

// The pieces of a text that `end` ends.
pub fn of(text: &[u8], end: u8) -> Pieces<'_>
    ensures all { result.rest.now ≡ text.now }
    ensures ended { result.end ≡ end }
{
    Pieces { rest: text, end }
}

impl<'a> Iterator for Pieces<'a> {
    type Item = &'a [u8];

    ghost next_gives = { GivesPiece };

    ghost remaining = { λ s. at_most (length s.rest.now) };

    fn next(&mut self) -> Option<&'a [u8]> {
        if self.rest.is_empty() {
            return None;
        }
        let (piece, rest) = crate::split(self.rest, self.end);
        self.rest = rest;
        Some(piece)
    }
}
