// The rules by which a board judges its record and repairs it, over whatever a board can see of its neighbours.
#![tactic(auto)]

mod board;
mod judge;
mod moves;
mod neighbourhood;
mod offers;
mod record;
mod status;
mod text;
mod verdict;

pub use board::Board;
pub use moves::Move;
pub use neighbourhood::{Neighbourhood, Seen};
pub use offers::least_offer;
pub use record::Record;
pub use status::{NoStatus, Status};
pub use verdict::{Plan, Verdict};
