ghost use Rattle.std.specs.Prelude.{◌<◌, ◌≤◌};
ghost use Rattle.network.specs.Cables.{Cabled};
ghost use Rattle.hall.specs.Tables.{far_of, Rows};

use network::End;

mod cables;

// How many boards there are, and the far end of the cable at each port. Every cable stands at both its ends. A fixed table, since
// the subject sets its bounds; it has no model, whose value would be a function of boards and ports and have no code.
#[derive(Drop)]
pub(crate) struct Cabling {
    n: u32,
    ends: [[Option<End>; 8]; 64],
    ghost some: { 0 < n },
    ghost few: { n ≤ 64 },
    ghost rows: { Rows ends },
    ghost wired: { ∥ Cabled n (far_of ends) ∥₁ },
}
