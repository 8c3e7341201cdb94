ghost use Rattle.std.specs.Prelude.{◌≡◌};
ghost use Rattle.board.specs.Station.{own_of};
ghost use Rattle.board.specs.Move.{seen_in, Advances, AsInHall};

use crate::ready::slots;
use crate::states::{Owing, Ready};
use crate::station::Station;
use frames::read_record;
use lengths::Length;
use rules::{Board, Move, Neighbourhood, Record, Seen};
use std::marker::PhantomData;

// A neighbour's par names this cable where it is the port that the neighbour sent from. (The impl stands on the state, so that
// `at` can be called from outside; a private view would be one struct and one value more.)
impl<'e, L: Length> Neighbourhood<L> for Ready<'e, L> {
    ghost seen = { λ s. seen_in L.Length.meaning s.station.ports s.ear.now };

    fn at(&self, port: u8) -> Option<Seen<L>> {
        let weight = self.station.ports.weight(u32::from(port))?;
        let fields = slots(self.ear).get(usize::from(port))?;
        let sent = read_record::<L>(fields).ok()?;
        Some(Seen::of(sent.record, sent.port, weight))
    }
}

impl<'e, L: Length> Ready<'e, L> {
    // The board's record.
    pub fn own(&self) -> Record<L>
        ensures { result ≡ own_of L.Length.meaning self.now.station }
    {
        self.station.own()
    }

    // Moves by the rules, and owes the record from then on, also where no rule is enabled. The root stays as it is.
    pub fn advance(self) -> Owing<L>
        ensures moves { Advances L.Length.meaning self.entry result }
        ensures agrees { AsInHall L.Length.meaning self.entry result }
    {
        let (station, verdict) = if self.station.root {
            (self.station, None)
        } else {
            let board = Board {
                own: self.own(),
                near: &self,
            };
            let Move { verdict, record } = board.moved();
            (Station::of(false, record, self.station.ports), verdict)
        };
        Owing {
            station,
            verdict,
            kind: PhantomData,
        }
    }
}
