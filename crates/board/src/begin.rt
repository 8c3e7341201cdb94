ghost use Rattle.std.specs.Prelude.{◌≡◌, MatchBool};
ghost use Rattle.board.specs.Station.{own_of};
ghost use Rattle.board.specs.Begin.{AllAdmitted, SomeUnadmitted, FirstStation, Begins};

use crate::fault::EarFault;
use crate::ports::Ports;
use crate::states::Listening;
use crate::station::Station;
use lengths::Length;
use rules::Record;

// Whether the weight of every wired port is admitted. (A closure stands there, since no proof is made yet of
// `is_none_or(L::admits)`: a trait's method does not fit the bound.)
fn admitted<L: Length>(weights: [Option<u32>; 8]) -> bool
    ensures { MatchBool result (AllAdmitted L.Length.meaning weights) (SomeUnadmitted L.Length.meaning weights) }
{
    weights
        .iter()
        .all(|weight| weight.is_none_or(|weight| L::admits(weight)))
}

// The board as it begins: the root's record is not read.
fn first_station<L: Length>(
    root: bool,
    status: u32,
    par: u32,
    code: u64,
    ports: Ports,
) -> Option<Station>
    ensures { FirstStation L.Length.meaning root status par code ports result }
{
    let own = if root {
        Record::<L>::root()
    } else {
        Record::read(status, par, code)?
    };
    Some(Station::of(root, own, ports))
}

impl<L: Length> Listening<L> {
    // A board that has heard nothing yet. The root's record is always C, 255 and the start, whatever the numbers: they stand
    // beside `root` as parameters of their own, since the call is given them so, and for a root no record may be made of them.
    // The subject sets the eight weights: a board has eight ports.
    pub fn begin(
        root: bool,
        status: u32,
        par: u32,
        code: u64,
        weights: [Option<u32>; 8],
    ) -> Result<Listening<L>, EarFault>
        ensures { Begins L.Length.meaning root status par code weights result }
    {
        if !admitted::<L>(weights) {
            return Err(EarFault::Weight);
        }
        let ports = Ports::new(weights);
        let station = first_station::<L>(root, status, par, code, ports).ok_or(EarFault::Record)?;
        Ok(Listening::anew(station))
    }

    // The board's record. Each state has a method of its own for it, one call each, since the three are separate types.
    pub fn own(&self) -> Record<L>
        ensures { result ≡ own_of L.Length.meaning self.now.station }
    {
        self.station.own()
    }
}
