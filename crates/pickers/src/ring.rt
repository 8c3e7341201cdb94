ghost use Rattle.std.specs.Prelude.{◌≡◌};
ghost use Rattle.pickers.specs.Choices.{following, pick_ring};
ghost use Rattle.pickers.specs.Seeking.{ring_chooses};

use crate::picker::Picker;
use sets::least_from;

// Chooses one board after another, round and round: the least above the last one, else the least.
#[derive(Clone, Copy)]
pub struct Ring {
    last: u32,
}

impl Ring {
    // It begins above board 0.
    pub fn new() -> Ring
        ensures { result.last ≡ 0 }
    {
        Ring { last: 0 }
    }
}

// The least board of the set above the last one, else the least.
fn next_after(set: u64, last: u32) -> Option<u32>
    ensures { result ≡ following set last }
{
    least_from(set, last.saturating_add(1)).or_else(|| least_from(set, 0))
}

impl Picker for Ring {
    ghost picks = { pick_ring };

    ghost chooses = { ring_chooses };

    fn ask(&mut self, boards: u64) -> u64 {
        let Some(board) = next_after(boards, self.last) else {
            return 0;
        };
        self.last = board;
        1 << board
    }
}
