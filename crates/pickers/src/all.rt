ghost use Rattle.pickers.specs.Choices.{pick_all};
ghost use Rattle.std.proofs.Common.{rules};

use crate::picker::Picker;

// Chooses the whole set.
#[derive(Clone, Copy)]
pub struct All;

impl Picker for All {
    ghost picks = { pick_all };

    ghost chooses = { Prim.search rules };

    fn ask(&mut self, boards: u64) -> u64 {
        boards
    }
}
