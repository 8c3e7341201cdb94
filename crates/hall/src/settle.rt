ghost use Rattle.std.specs.Prelude.{List};
ghost use Rattle.hall.specs.Hall.{boards_in, Reaches, NearAll, EnabledAfter, PlannedAfter};
ghost use Rattle.hall.specs.Runs.{Settles, Call, Run, IsSettled, EveryRun};

use crate::plans::Plans;
use crate::tables::Hall;
use lengths::Length;
use pickers::Picker;
use sets::{Members, with};

impl<L: Length> Hall<L> {
    // These boards, this one and its neighbours. A `for`: a port is asked for, and nothing indexed.
    fn with_neighbours(&self, set: u64, board: u32) -> u64
        ensures { Reaches self.now set board 8 result }
    {
        let mut near = set;
        for port in 0..8 {
            // A free port adds the board itself, which is in the set already or does no harm: one step for every port.
            let end = self.cabling.far(board, port);
            near = with(near, end.map_or(board, |end| u32::from(end.board)));
        }
        near
    }

    // The boards of the set and their neighbours: nobody else sees anything new when they move.
    fn near(&self, moved: u64) -> u64
        ensures { NearAll self.now moved (boards_in self.now) result }
    {
        let mut near = moved;
        for board in Members::of(moved) {
            near = self.with_neighbours(near, board);
        }
        near
    }

    // The enabled boards once those of `moved` have moved, where those of `before` were enabled and had their plans:
    // only who is near is judged again.
    fn enabled_after(&self, plans: &mut Plans, before: u64, moved: u64) -> u64
        ensures enabled { EnabledAfter L.Length.meaning self.now before moved result }
        ensures planned { PlannedAfter L.Length.meaning self.now before moved plans.old result plans.new }
    {
        let near = self.near(moved);
        self.judge_again(plans, before, near)
    }

    // While some board is enabled, asks the picker and makes the turn with its choice. It ends, whoever the picker
    // passes over, since every turn leaves less to do.
    pub fn settle<P: Picker>(&mut self, picker: &mut P)
        ensures steps { Settles L.Length.meaning P.Picker.picks picker.old self.old picker.new self.new }
        ensures settled { (calls : List Call) → Run L.Length.meaning calls self.old → IsSettled L.Length.meaning self.new }
        ensures promise { EveryRun L.Length.meaning }
    {
        let mut plans = Plans::none();
        let mut enabled = self.judge_all(&mut plans);
        while enabled != 0 {
            let chosen = picker.ask(enabled);
            self.advance(&plans, chosen);
            enabled = self.enabled_after(&mut plans, enabled, chosen);
        }
    }
}
