ghost use Rattle.hall.specs.Hall.{PlanIn, AllPlanned, EnabledSet, JudgedAgain, Sees};

use crate::tables::Hall;
use crate::view::Around;
use lengths::Length;
use rules::Plan;
use sets::{Members, with, without};

// How each board would move, as it was last judged. A table of fixed size, for the 64 boards that a hall can have; it is filled in
// place, apart from the set of enabled boards: a turn judges just its own set, and a settle takes over what it had.
#[derive(Drop)]
pub(crate) struct Plans {
    pub(crate) of: [Option<Plan>; 64],
}

impl Plans {
    // No board was judged yet.
    pub(crate) fn none() -> Plans {
        Plans { of: [None; 64] }
    }
}

impl<L: Length> Hall<L> {
    // A board as the rules see it; nothing for board 0, which they never move, and for what is no board of the hall.
    pub(crate) fn ruled(&self, board: u32) -> Option<Around<'_, L>>
        ensures { Sees self.now board result }
    {
        if board == 0 || self.cabling.boards() <= board {
            return None;
        }
        Some(Around {
            cabling: &self.cabling,
            records: &self.ledger.records,
            board,
        })
    }

    // How a board would move; board 0, and what is no board of the hall, would not.
    fn plan_at(&self, board: u32) -> Option<Plan>
        ensures { PlanIn L.Length.meaning self.now board result }
    {
        let around = self.ruled(board)?;
        around.board().plan()
    }

    // Judges the boards in doubt again. Answers the boards of the set, but of those in doubt just the enabled ones.
    pub(crate) fn judge_again(&self, plans: &mut Plans, set: u64, doubtful: u64) -> u64
        ensures { JudgedAgain L.Length.meaning self.now set doubtful plans.old result plans.new }
    {
        let mut enabled = without(set, doubtful);
        for board in Members::of(doubtful) {
            let plan = self.plan_at(board);
            plans.of[board as usize] = plan;
            if plan.is_some() {
                enabled = with(enabled, board);
            }
        }
        enabled
    }

    // Judges every board, and answers the set of the enabled ones.
    pub(crate) fn judge_all(&self, plans: &mut Plans) -> u64
        ensures enabled { EnabledSet L.Length.meaning self.now result }
        ensures planned { AllPlanned L.Length.meaning self.now plans.new result }
    {
        self.judge_again(plans, 0, u64::MAX)
    }
}
