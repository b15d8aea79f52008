// The members of a set one after the other, lowest first: `for i in set`.
ghost use Rattle.std.specs.Prelude.{◌≡◌};
ghost use Rattle.std.specs.Iterator.{YieldsFirst, item_count};
ghost use Rattle.order.specs.Sets.{listed};

use crate::Set;

// The members that are still to come.
#[derive(Clone, Copy)]
pub struct Members {
    left: Set,
}

impl Iterator for Members {
    type Item = usize;

    ghost next_gives = { YieldsFirst (λ m. listed m.left) };

    ghost remaining = { item_count (λ m. listed m.left) };

    fn next(&mut self) -> Option<usize> {
        let i = self.left.lowest()?;
        self.left = self.left.without_lowest();
        Some(i)
    }
}

impl IntoIterator for Set {
    type Item = usize;

    type IntoIter = Members;

    ghost into_iter_gives = { λ set members. members.left ≡ set };

    fn into_iter(self) -> Members {
        Members { left: self }
    }
}
