ghost use Rattle.std.specs.Prelude.{◌≡◌};
ghost use Rattle.rules.specs.Records.{root_of, ReadsRecord};

use crate::status::Status;
use lengths::Length;

// What a board keeps: its status, the port towards its parent (any byte; only a cabled port leads anywhere) and its length.
#[derive(Clone, Copy, PartialEq, Eq)]
pub struct Record<L> {
    pub status: Status,
    pub par: u8,
    pub length: L,
}

impl<L: Length> Record<L> {
    // The root's record, which never changes.
    pub fn root() -> Record<L>
        ensures { result ≡ root_of L.Length.meaning }
    {
        Record {
            status: Status::C,
            par: 255,
            length: L::start(),
        }
    }

    // The record of three numbers, the last its length's code; nothing where one of them stands for nothing. Callers have the three
    // from a line or a call, and a struct of them would be made only to be taken apart here.
    pub fn read(status: u32, par: u32, code: u64) -> Option<Record<L>>
        ensures { ReadsRecord L.Length.meaning status par code result }
    {
        Some(Record {
            status: Status::try_from(status).ok()?,
            par: u8::try_from(par).ok()?,
            length: L::read(code)?,
        })
    }
}
