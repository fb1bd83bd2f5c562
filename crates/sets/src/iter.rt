// The members of a word, one after another.

ghost use Rattle.std.specs.Prelude.{◌≡◌};
ghost use Rattle.std.specs.Iterator.{at_most};
ghost use Rattle.matroid.specs.Set.{size};
ghost use Rattle.sets.specs.Bits.{bit};
ghost use Rattle.sets.specs.Next.{Next};

use crate::{first, without};

// The members of a word that are still to come, rising.
#[derive(Drop)]
pub struct Members {
    pub left: u64,
}

impl Iterator for Members {
    type Item = usize;

    ghost next_gives = { λ s r t. Next s.left r t.left };

    ghost remaining = { λ s. at_most (size 64 (bit s.left)) };

    fn next(&mut self) -> Option<usize> {
        let k = first(self.left)?;
        self.left = without(self.left, k);
        Some(k)
    }
}
