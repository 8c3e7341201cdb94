ghost use Rattle.std.specs.Prelude.{◌≡◌};
ghost use Rattle.board.specs.Station.{own_of, Stands};

use crate::ports::Ports;
use lengths::Length;
use rules::{Record, Status};

// A board end's fields: whether it is the root, its record with the length by its code, and its ports. The record of a root is
// not read. It stands beside the flag all the same, and in no `Option`: status, par and code are three plain fields of every
// board, as the fixed form of a board end's states has them.
#[derive(Clone, Copy)]
pub(crate) struct Station {
    pub(crate) root: bool,
    pub(crate) status: Status,
    pub(crate) par: u8,
    pub(crate) code: u64,
    pub(crate) ports: Ports,
}

impl Station {
    // A board in numbers, from its record.
    pub(crate) fn of<L: Length>(root: bool, own: Record<L>, ports: Ports) -> Station
        ensures { Stands L.Length.meaning root own ports result }
    {
        let Record {
            status,
            par,
            length,
        } = own;
        Station {
            root,
            status,
            par,
            code: length.code(),
            ports,
        }
    }

    // The board's record. The root's is always C, 255 and the start.
    pub(crate) fn own<L: Length>(self) -> Record<L>
        ensures { result ≡ own_of L.Length.meaning self }
    {
        if self.root {
            return Record::root();
        }
        Record {
            status: self.status,
            par: self.par,
            length: L::read(self.code).unwrap_or(L::start()),
        }
    }
}
