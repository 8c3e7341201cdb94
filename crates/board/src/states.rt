ghost use Rattle.std.specs.Prelude.{◌≡◌};

use crate::station::Station;
use rules::Verdict;
use std::marker::PhantomData;

// A board that listens: the ports that it has heard since it last told its record.
#[derive(Drop)]
pub struct Listening<L> {
    pub(crate) station: Station,
    pub(crate) heard: u64,
    pub(crate) kind: PhantomData<L>,
}

// A board that has heard every neighbour, over the ear that it heard them with, until it moves. The subject sets the size of
// the ear: a slot of 16 bytes for each of a board's eight ports.
#[derive(Drop)]
pub struct Ready<'e, L> {
    pub(crate) station: Station,
    pub(crate) ear: &'e [u8; 128],
    pub(crate) kind: PhantomData<L>,
}

// A board that has moved and owes its neighbours its record: it cannot be let go before it has told.
pub struct Owing<L> {
    pub(crate) station: Station,
    pub(crate) verdict: Option<Verdict>,
    pub(crate) kind: PhantomData<L>,
}

impl<L> Listening<L> {
    // A board that has heard nothing.
    pub(crate) fn anew(station: Station) -> Listening<L>
        ensures same { result.station ≡ station }
        ensures silent { result.heard ≡ 0 }
    {
        Listening {
            station,
            heard: 0,
            kind: PhantomData,
        }
    }
}
