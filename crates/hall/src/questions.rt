ghost use Rattle.std.specs.Prelude.{◌≡◌, ◌<◌};
ghost use Rattle.network.specs.Turns.{alive_root};
ghost use Rattle.hall.specs.Hall.{boards_in, far_in, records_in, There, IsVerdict, Looks, Tallies, EnabledSet};

use crate::fault::Fault;
use crate::plans::Plans;
use crate::tables::{Hall, Tally};
use crate::view::record_at;
use lengths::Length;
use rules::{Record, Status, Verdict};

// A board's record, its verdict, and whether it is an alive abnormal root.
#[derive(Clone, Copy)]
pub struct Look<L> {
    pub record: Record<L>,
    pub verdict: Option<Verdict>,
    pub alive: bool,
}

impl<L: Length> Hall<L> {
    // Refuses what is no board of the hall.
    pub(crate) fn check_board(&self, board: u32) -> Result<(), Fault>
        ensures { There self.now board result }
    {
        if self.cabling.boards() <= board {
            return Err(Fault::Board);
        }
        Ok(())
    }

    // The verdict of a board; board 0, and what is no board, has none.
    fn verdict_at(&self, board: u32) -> Option<Verdict>
        ensures { IsVerdict L.Length.meaning self.now board result }
    {
        let around = self.ruled(board)?;
        around.board().verdict()
    }

    // Whether a board is an abnormal root that is C or EB; board 0 is none.
    fn is_alive_root(&self, board: u32) -> bool
        requires { board < boards_in self.now }
        ensures { result ≡ alive_root L.Length.meaning (far_in self.now) (records_in L.Length.meaning self.now) board }
    {
        let Some(around) = self.ruled(board) else {
            return false;
        };
        let board = around.board();
        board.is_abnormal_root() && matches!(board.own.status, Status::C | Status::EB)
    }

    // A board's record, its verdict, and whether it is an alive abnormal root.
    pub fn look(&self, board: u32) -> Result<Look<L>, Fault>
        ensures { Looks L.Length.meaning self.now board result }
    {
        self.check_board(board)?;
        Ok(Look {
            record: record_at(&self.ledger.records, board),
            verdict: self.verdict_at(board),
            alive: self.is_alive_root(board),
        })
    }

    // How often the board has moved by each rule since the last change.
    pub fn tally(&self, board: u32) -> Result<Tally, Fault>
        ensures { Tallies self.now board result }
    {
        self.check_board(board)?;
        Ok(self.tallies[board as usize])
    }

    // The set of enabled boards.
    pub fn enabled(&self) -> u64
        ensures { EnabledSet L.Length.meaning self.now result }
    {
        let mut plans = Plans::none();
        self.judge_all(&mut plans)
    }
}
