ghost use Rattle.std.specs.Prelude.{◌≡◌, ◌<◌, length};
ghost use Rattle.network.specs.Cables.{around};
ghost use Rattle.hall.specs.Tables.{far_of, rec_of};

use crate::cabling::Cabling;
use lengths::Length;
use rules::{Board, Neighbourhood, Record, Seen};

// What one board of a hall sees through the hall's tables. The records are a slice: for an array of a type parameter's values it
// stayed open, at each call that takes it, that the array fits in memory.
#[derive(Drop)]
pub(crate) struct Around<'a, L> {
    pub(crate) cabling: &'a Cabling,
    pub(crate) records: &'a [Record<L>],
    pub(crate) board: u32,
    ghost whole: { length records.now ≡ 64 },
    ghost inside: { board < 64 },
}

// A board's record; board 0's is the root's, whatever the table has.
pub(crate) fn record_at<L: Length>(records: &[Record<L>], board: u32) -> Record<L>
    requires { board < length records.now }
    ensures { result ≡ rec_of L.Length.meaning records.now board }
{
    // The table has a place for board 0 too, so each board is one look.
    let stored = records[board as usize];
    if board == 0 { Record::root() } else { stored }
}

impl<'a, L: Length> Around<'a, L> {
    // The board with its record, for the rules to judge.
    pub(crate) fn board(&self) -> Board<'_, L, Around<'a, L>>
        ensures own { result.own ≡ rec_of L.Length.meaning self.now.records.now self.now.board }
        ensures near { result.near.now ≡ self.now }
    {
        Board {
            own: record_at(self.records, self.board),
            near: self,
        }
    }
}

impl<'a, L: Length> Neighbourhood<L> for Around<'a, L> {
    ghost seen = { λ s. around (far_of s.cabling.now.ends) (rec_of L.Length.meaning s.records.now) s.board };

    fn at(&self, port: u8) -> Option<Seen<L>> {
        let end = self.cabling.far(self.board, u32::from(port))?;
        let record = record_at(self.records, u32::from(end.board));
        Some(Seen::of(record, end.port, end.weight))
    }
}
