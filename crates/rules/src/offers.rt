ghost use Rattle.std.specs.Prelude.{◌≡◌, MatchOption};
ghost use Rattle.rules.specs.Rules.{offered, SomeOffer, LeastOffer};

use crate::neighbourhood::Neighbourhood;
use crate::status::Status;
use lengths::Length;

// What the port offers: a C neighbour's length, extended over the cable.
pub(crate) fn offer<L: Length, N: Neighbourhood<L>>(near: &N, port: u8) -> Option<L>
    ensures { result ≡ offered L.Length.meaning (N.Neighbourhood.seen near.now port) }
{
    let neighbour = near.at(port).filter(|s| s.status == Status::C)?;
    neighbour.length.extend(neighbour.weight)
}

// The least offer and its port, the lowest among equals; nothing where no port offers. A `for`: for a chain with `min_by_key` it
// stayed open that what it gives is the least offer.
pub fn least_offer<L: Length, N: Neighbourhood<L>>(near: &N) -> Option<(u8, L)>
    ensures { MatchOption result (SomeOffer L.Length.meaning (N.Neighbourhood.seen near.now) → ⊥) (λ o. LeastOffer L.Length.meaning (N.Neighbourhood.seen near.now) o.0 o.1) }
{
    let mut best: Option<(u8, L)> = None;
    for port in 0..8u8 {
        if let Some(length) = offer(near, port) {
            best = match best {
                Some((p, l)) if length >= l => Some((p, l)),
                _ => Some((port, length)),
            };
        }
    }
    best
}
