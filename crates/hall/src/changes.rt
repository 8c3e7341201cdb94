ghost use Rattle.std.specs.Prelude.{◌≡◌, ℕ, ◌<◌, slice_index_or};
ghost use Rattle.hall.specs.Tables.{rec_of};
ghost use Rattle.hall.specs.Hall.{nothing, new_record, Makes, Wires, Cuts, Planted};

use crate::cabling::Cabling;
use crate::fault::Fault;
use crate::tables::{Hall, Ledger, Tally};
use lengths::Length;
use rules::{Record, Status};

// The tallies of boards that have not moved.
fn no_moves() -> [Tally; 64]
    ensures { (b : ℕ) → slice_index_or result b nothing ≡ nothing }
{
    [Tally::default(); 64]
}

// The records of a new hall.
fn isolated<L: Length>() -> Ledger<L>
    ensures { (b : ℕ) → 0 < b → b < 64 → rec_of L.Length.meaning result.records b ≡ new_record L.Length.meaning }
{
    let record = Record {
        status: Status::I,
        ..Record::root()
    };
    Ledger {
        records: [record; 64],
    }
}

impl<L: Length> Hall<L> {
    // A hall without cables, whose boards but board 0 are isolated.
    pub fn new(n: u32) -> Result<Hall<L>, Fault>
        ensures { Makes L.Length.meaning n result }
    {
        let cabling = Cabling::new(n).ok_or(Fault::Size)?;
        Ok(Hall {
            cabling,
            ledger: isolated(),
            tallies: no_moves(),
        })
    }

    // Adds a cable between two ports. Board and port are bare numbers here, as a caller has them: a pair would be taken apart again
    // at each look into a table.
    pub fn wire(&mut self, a: u32, p: u32, b: u32, q: u32, weight: u32) -> Result<(), Fault>
        ensures { Wires L.Length.meaning self.old a p b q weight result self.new }
    {
        self.check_board(a)?;
        self.check_board(b)?;
        if 7 < p || 7 < q {
            return Err(Fault::Port);
        }
        if a == b {
            return Err(Fault::SameBoard);
        }
        if self.cabling.far(a, p).is_some() || self.cabling.far(b, q).is_some() {
            return Err(Fault::Occupied);
        }
        if !L::admits(weight) {
            return Err(Fault::Weight);
        }
        self.cabling.join(a, p, b, q, weight);
        self.tallies = no_moves();
        Ok(())
    }

    // Removes the cable at a port and frees both its ports.
    pub fn cut(&mut self, a: u32, p: u32) -> Result<(), Fault>
        ensures { Cuts L.Length.meaning self.old a p result self.new }
    {
        self.check_board(a)?;
        if 7 < p {
            return Err(Fault::Port);
        }
        let end = self.cabling.far(a, p).ok_or(Fault::NoCable)?;
        self.cabling.cut(a, p, end);
        self.tallies = no_moves();
        Ok(())
    }

    // Overwrites a board's record.
    pub fn plant(&mut self, board: u32, status: u32, par: u32, code: u64) -> Result<(), Fault>
        ensures { Planted L.Length.meaning self.old board status par code result self.new }
    {
        self.check_board(board)?;
        if board == 0 {
            return Err(Fault::Root);
        }
        let record = Record::read(status, par, code).ok_or(Fault::Record)?;
        self.ledger.records[board as usize] = record;
        self.tallies = no_moves();
        Ok(())
    }
}
