ghost use Rattle.std.specs.Prelude.{◌≡◌};
ghost use Rattle.rules.specs.Rules.{restated, taken, followed, Moves};

use crate::board::Board;
use crate::neighbourhood::Neighbourhood;
use crate::offers::offer;
use crate::record::Record;
use crate::status::Status;
use crate::verdict::{Plan, Verdict};
use lengths::Length;

// By which rule a board moves, if by one, and its record afterwards.
#[derive(Clone, Copy)]
pub struct Move<L> {
    pub verdict: Option<Verdict>,
    pub record: Record<L>,
}

impl<L: Copy> Record<L> {
    // The record with another status.
    fn restated(self, status: Status) -> Record<L>
        ensures { result ≡ restated self status }
    {
        Record { status, ..self }
    }
}

impl<'n, L: Length, N: Neighbourhood<L>> Board<'n, L, N> {
    // The record with the port's offer taken; as it was where the port offers nothing.
    fn taking_offer(&self, port: u8) -> Record<L>
        ensures { result ≡ taken L.Length.meaning self.now.own (N.Neighbourhood.seen self.now.near.now) port }
    {
        offer(self.near, port).map_or(
            self.own,
            |length| Record {
                status: Status::C,
                par: port,
                length,
            },
        )
    }

    // The record once it has followed a plan. One with no plan, or with another status than the plan is for, stays as it is.
    pub fn follow(&self, plan: Option<Plan>) -> Record<L>
        ensures { result ≡ followed L.Length.meaning self.now.own (N.Neighbourhood.seen self.now.near.now) plan }
    {
        let own = self.own;
        match (own.status, plan) {
            (Status::C, Some(Plan::RC { port })) => self.taking_offer(port),
            (Status::C, Some(Plan::REB)) => own.restated(Status::EB),
            (Status::EB, Some(Plan::REF)) => own.restated(Status::EF),
            (Status::EF, Some(Plan::RI)) => own.restated(Status::I),
            (Status::EF | Status::I, Some(Plan::RR { port })) => self.taking_offer(port),
            _ => own,
        }
    }

    // It moves by the rules: also where its verdict is none, and then its record stays.
    pub fn moved(&self) -> Move<L>
        ensures { Moves L.Length.meaning self.now.own (N.Neighbourhood.seen self.now.near.now) result.verdict result.record }
    {
        let plan = self.plan();
        let record = self.follow(plan);
        Move {
            verdict: plan.map(Plan::verdict),
            record,
        }
    }
}
