ghost use Rattle.std.specs.Prelude.{◌≡◌, ℕ, Option};
ghost use Rattle.rules.specs.Rules.{seen_of};
ghost use Rattle.rules.specs.declared.neighbourhood.Seen.{Seen};

use crate::record::Record;
use crate::status::Status;

// What a cabled port shows: the neighbour's status and length, the cable's weight,
// and whether the neighbour's par names this cable.
#[derive(Clone, Copy)]
pub struct Seen<L> {
    pub status: Status,
    pub length: L,
    pub weight: u32,
    pub named: bool,
}

impl<L> Seen<L> {
    // What a cable shows of a neighbour with this record, at whose port it ends.
    pub fn of(neighbour: Record<L>, port: u8, weight: u32) -> Seen<L>
        ensures { result ≡ seen_of neighbour port weight }
    {
        Seen {
            status: neighbour.status,
            length: neighbour.length,
            weight,
            named: neighbour.par == port,
        }
    }
}

// What a board sees of its neighbours, port by port: all that the rules know.
pub trait Neighbourhood<L> {
    ghost seen: { Self → ℕ → Option (Seen L) };

    fn at(&self, port: u8) -> Option<Seen<L>>
        ensures { result ≡ seen self.now port };
}
