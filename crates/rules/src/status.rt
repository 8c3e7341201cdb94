ghost use Rattle.std.specs.Prelude.{◌≡◌};
ghost use Rattle.rules.specs.Status.{number_of, NumberOf};

// What a board believes of its way: I has none, C has one, EB has lost it and tells its children, EF has heard them all confirm.
// A frame and a line `plant` write its number, a transcript its word.
#[derive(Clone, Copy, Debug, PartialEq, Eq)]
pub enum Status {
    I = 0,
    C = 1,
    EB = 2,
    EF = 3,
}

// A number that stands for no status.
#[derive(Debug, Clone, Copy, PartialEq, Eq)]
pub struct NoStatus;

impl From<Status> for u8 {
    ghost from_gives = { λ s n. n ≡ number_of s };

    fn from(status: Status) -> u8 {
        status as u8
    }
}

impl TryFrom<u32> for Status {
    type Error = NoStatus;

    ghost try_from_gives = { NumberOf };

    fn try_from(number: u32) -> Result<Status, NoStatus> {
        match number {
            0 => Ok(Status::I),
            1 => Ok(Status::C),
            2 => Ok(Status::EB),
            3 => Ok(Status::EF),
            _ => Err(NoStatus),
        }
    }
}
