ghost use Rattle.std.specs.Prelude.{◌≡◌};
ghost use Rattle.commands.specs.Misreads.{number_of, byte_of};

// Why a line is no command.
#[derive(Clone, Copy, Debug, PartialEq, Eq)]
pub enum Misread {
    Malformed,
    Unknown,
    Count,
    Field { byte: usize },
}

// The number of a refusal.
impl From<Misread> for u32 {
    ghost from_gives = { λ m r. r ≡ number_of m };

    fn from(misread: Misread) -> u32 {
        match misread {
            Misread::Malformed => 30,
            Misread::Unknown => 31,
            Misread::Count => 32,
            Misread::Field { .. } => 33,
        }
    }
}

impl Misread {
    // The byte of the line, counted from 1, that this refusal points at.
    pub fn byte(self) -> usize
        ensures { result ≡ byte_of self }
    {
        match self {
            Misread::Field { byte } => byte,
            _ => 1,
        }
    }
}
