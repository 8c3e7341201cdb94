ghost use Rattle.std.specs.Prelude.{◌≡◌, ◌-◌};
ghost use Rattle.sets.specs.Members.{StepsOn};
ghost use Rattle.std.specs.Iterator.{at_most};

use crate::least_from;

// The boards of a set from a number on, in ascending order.
#[derive(Drop)]
pub struct Members {
    set: u64,
    from: u32,
}

impl Members {
    // All the boards of a set.
    pub fn of(set: u64) -> Members
        ensures whole { result.set ≡ set }
        ensures start { result.from ≡ 0 }
    {
        Members { set, from: 0 }
    }
}

impl Iterator for Members {
    type Item = u32;

    ghost next_gives = { StepsOn };

    ghost remaining = { λ m. at_most (64 - m.from) };

    fn next(&mut self) -> Option<u32> {
        let board = least_from(self.set, self.from)?;
        self.from = board + 1;
        Some(board)
    }
}
