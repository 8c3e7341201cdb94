ghost use Rattle.std.specs.Prelude.{◌≡◌, ◌<◌, Some, MatchBool};
ghost use Rattle.rules.specs.declared.verdict.Verdict.{Verdict};
ghost use Rattle.hall.specs.Hall.{count_of, counted, Noted, AllPlanned, AllEnabled, SomeDisabled, Turned, Turns};

use crate::fault::Fault;
use crate::plans::Plans;
use crate::tables::{Hall, Tally};
use crate::view::Around;
use lengths::Length;
use rules::{Record, Verdict as Rule};
use sets::{Members, least_from, size};

impl Tally {
    // One move more by this rule: a sum in each arm, where a `&mut` chosen by the match would want one name more.
    fn count(&mut self, rule: Rule)
        ensures { (v : Verdict) → count_of self.new v ≡ counted (count_of self.old v) (Some rule) v }
    {
        match rule {
            Rule::RC => self.corrected = self.corrected.saturating_add(1),
            Rule::REB => self.broadcast = self.broadcast.saturating_add(1),
            Rule::REF => self.fedback = self.fedback.saturating_add(1),
            Rule::RI => self.isolated = self.isolated.saturating_add(1),
            Rule::RR => self.rejoined = self.rejoined.saturating_add(1),
        }
    }
}

impl<L: Length> Hall<L> {
    // A board has moved by this rule and has this record now.
    fn note(&mut self, board: u32, moved: Record<L>, rule: Rule)
        requires { board < 64 }
        ensures { Noted self.old board moved rule self.new }
    {
        self.ledger.records[board as usize] = moved;
        self.tallies[board as usize].count(rule);
    }

    // The boards of the set move together, each as it is planned.
    pub(crate) fn advance(&mut self, plans: &Plans, set: u64)
        requires { AllPlanned L.Length.meaning self.old plans.now set }
        ensures { Turned L.Length.meaning self.old set self.new }
    {
        let before = self.ledger;
        for board in Members::of(set) {
            let planned = plans.of[board as usize];
            if let Some(plan) = planned {
                let around = Around {
                    cabling: &self.cabling,
                    records: &before.records,
                    board,
                };
                let record = around.board().follow(planned);
                self.note(board, record, plan.verdict());
            }
        }
    }

    // Whether every board of the set is enabled; then they have their plans.
    fn all_enabled(&self, plans: &mut Plans, set: u64) -> bool
        ensures { MatchBool result (AllEnabled L.Length.meaning self.now set × AllPlanned L.Length.meaning self.now plans.new set) (SomeDisabled L.Length.meaning self.now set) }
    {
        self.judge_again(plans, 0, set) == set
    }

    // The boards of the set move together; the answer is how many.
    pub fn turn(&mut self, set: u64) -> Result<u32, Fault>
        ensures { Turns L.Length.meaning self.old set result self.new }
    {
        if least_from(set, self.cabling.boards()).is_some() {
            return Err(Fault::Board);
        }
        if set == 0 {
            return Err(Fault::Empty);
        }
        let mut plans = Plans::none();
        if !self.all_enabled(&mut plans, set) {
            return Err(Fault::Disabled);
        }
        self.advance(&plans, set);
        Ok(size(set))
    }
}
