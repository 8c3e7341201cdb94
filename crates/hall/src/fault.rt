ghost use Rattle.std.specs.Prelude.{◌≡◌};
ghost use Rattle.hall.specs.Faults.{fault_number};

// Why a hall refuses a call, each with the number that the refusal returns.
#[derive(Clone, Copy, Debug, PartialEq, Eq)]
pub enum Fault {
    // the number of boards is not 1 to 64
    Size = 1,
    // there is no such board
    Board = 2,
    // a port is above 7
    Port = 3,
    // both ends are at one board
    SameBoard = 4,
    // a port already has a cable
    Occupied = 5,
    // the port has no cable
    NoCable = 6,
    // the weight is not admitted
    Weight = 7,
    // the board is 0
    Root = 8,
    // no such status, par or code
    Record = 9,
    // the set is empty
    Empty = 10,
    // a board of the set is not enabled
    Disabled = 11,
}

impl From<Fault> for u32 {
    ghost from_gives = { λ f n. n ≡ fault_number f };

    fn from(fault: Fault) -> u32 {
        fault as u32
    }
}
