ghost use Rattle.std.specs.Prelude.{◌≡◌, ⊤};

use crate::cabling::Cabling;
use rules::Record;
use std::alloc::AllocError;

// The records of the boards. What stands at board 0 is not read: the root's record never changes.
// A struct of their own: a turn copies them and nothing else, and no step is proved that copies an array of a type parameter's
// values, alone, from behind a reference.
#[derive(Copy)]
pub(crate) struct Ledger<L> {
    pub(crate) records: [Record<L>; 64],
}

// By hand: the proof that a derive makes stays open at an array of a type parameter's values.
impl<L: Copy> Clone for Ledger<L> {
    ghost is_clone = { λ x y. y ≡ x };

    ghost is_infallible = { λ _. ⊤ };

    fn clone(&self) -> Result<Ledger<L>, AllocError> {
        Ok(*self)
    }
}

// How often a board has moved by each rule, each count stopping at 2^64 - 1.
#[derive(Clone, Copy, Debug, Default, PartialEq, Eq)]
pub struct Tally {
    // RC: it took a lesser offer
    pub corrected: u64,
    // REB: it lost its way
    pub broadcast: u64,
    // REF: its children have confirmed
    pub fedback: u64,
    // RI: it went without a way
    pub isolated: u64,
    // RR: it took an offer again
    pub rejoined: u64,
}

// A hall whose lengths are of the kind L. Its tables are fixed, since the subject sets 64 boards: no call can want memory.
#[derive(Drop)]
pub struct Hall<L> {
    pub(crate) cabling: Cabling,
    pub(crate) ledger: Ledger<L>,
    pub(crate) tallies: [Tally; 64],
}
