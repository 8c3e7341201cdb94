ghost use Rattle.std.specs.Prelude.{◌≡◌, Decides, MatchOption};
ghost use Rattle.rules.specs.Rules.{misfit, abnormal, child, shows, ChildrenEF, SomeOffer, LesserOffer, LeastBelow, Joins, Judged, Plans};
ghost use Rattle.rules.specs.declared.status.Status.TheVariants.{C};

use crate::board::Board;
use crate::neighbourhood::{Neighbourhood, Seen};
use crate::offers::least_offer;
use crate::status::Status;
use crate::verdict::{Plan, Verdict};
use lengths::Length;

// Whether a board of this status and length does not fit below a board of status `above` and length `from` over the cable.
fn misfits<L: Length>(status: Status, length: L, above: Status, from: L, weight: u32) -> bool
    ensures { result ≡ misfit L.Length.meaning status length above from weight }
{
    let reach = from.extend(weight);
    above == Status::I
        || reach.is_none_or(|reach| length < reach)
        || status != above && above != Status::EB
}

impl<'n, L: Length, N: Neighbourhood<L>> Board<'n, L, N> {
    // Whether it is an abnormal root: not I, and it does not fit below the board that its par leads to.
    pub fn is_abnormal_root(&self) -> bool
        ensures { result ≡ abnormal L.Length.meaning self.now.own (N.Neighbourhood.seen self.now.near.now) }
    {
        let own = self.own;
        if own.status == Status::I {
            return false;
        }
        let Some(up) = self.near.at(own.par) else {
            return true;
        };
        misfits(own.status, own.length, up.status, up.length, up.weight)
    }

    // Whether the neighbour that a port shows is a child: its par names this cable, it is not I, and it fits below.
    fn is_parent_of(&self, s: Seen<L>) -> bool
        ensures { result ≡ child L.Length.meaning self.now.own s }
    {
        s.named
            && s.status != Status::I
            && !misfits(
                s.status,
                s.length,
                self.own.status,
                self.own.length,
                s.weight,
            )
    }

    // Whether every child is EF. A `for`: for a chain with `all` it stayed open that every port was looked at.
    fn children_ef(&self) -> bool
        ensures { Decides result (ChildrenEF L.Length.meaning self.now.own (N.Neighbourhood.seen self.now.near.now)) }
    {
        for port in 0..8u8 {
            if let Some(s) = self.near.at(port)
                && self.is_parent_of(s)
                && s.status != Status::EF
            {
                return false;
            }
        }
        true
    }

    // The port of the least offer, where that is less than the board's length.
    fn lesser_offer(&self) -> Option<u8>
        ensures { MatchOption result (LesserOffer L.Length.meaning (N.Neighbourhood.seen self.now.near.now) self.now.own.length → ⊥) (LeastBelow L.Length.meaning (N.Neighbourhood.seen self.now.near.now) self.now.own.length) }
    {
        let (port, length) = least_offer(self.near)?;
        (length < self.own.length).then_some(port)
    }

    // Whether the board at the par has this status.
    fn par_shows(&self, status: Status) -> bool
        ensures { result ≡ shows status (N.Neighbourhood.seen self.now.near.now self.now.own.par) }
    {
        let up = self.near.at(self.own.par);
        up.is_some_and(|up| up.status == status)
    }

    // A plan that takes the least offer, where a port offers.
    fn joining(&self) -> Option<Plan>
        ensures { MatchOption result (SomeOffer L.Length.meaning (N.Neighbourhood.seen self.now.near.now) → ⊥) (Joins L.Length.meaning (N.Neighbourhood.seen self.now.near.now)) }
    {
        let (port, _) = least_offer(self.near)?;
        Some(Plan::RR { port })
    }

    // The plan of a C board.
    fn plan_correct(&self) -> Option<Plan>
        requires { self.now.own.status ≡ C }
        ensures { Plans L.Length.meaning self.now.own (N.Neighbourhood.seen self.now.near.now) result }
    {
        if let Some(port) = self.lesser_offer() {
            return Some(Plan::RC { port });
        }
        (self.is_abnormal_root() || self.par_shows(Status::EB)).then_some(Plan::REB)
    }

    // How it would move: by the rule that is enabled, if one is.
    pub fn plan(&self) -> Option<Plan>
        ensures { Plans L.Length.meaning self.now.own (N.Neighbourhood.seen self.now.near.now) result }
    {
        match self.own.status {
            Status::C => self.plan_correct(),
            Status::EB => self.children_ef().then_some(Plan::REF),
            Status::EF if !self.is_abnormal_root() => None,
            Status::EF => self.joining().or(Some(Plan::RI)),
            Status::I => self.joining(),
        }
    }

    // The rule that is enabled, if one is.
    pub fn verdict(&self) -> Option<Verdict>
        ensures { Judged L.Length.meaning self.now.own (N.Neighbourhood.seen self.now.near.now) result }
    {
        self.plan().map(Plan::verdict)
    }
}
