ghost use Rattle.std.specs.Prelude.{◌≡◌};
ghost use Rattle.session.specs.Faults.{script_number, script_byte};
ghost use Rattle.session.specs.declared.fault.ScriptFault.TheVariants.{Misread as Misreading, Hall as Refusing};

use commands::Misread;
use hall::Fault;

// Why a line of a script is refused.
#[derive(Clone, Copy, Debug, PartialEq, Eq)]
pub enum ScriptFault {
    // the line is no command
    Misread(Misread),
    // the command wants a hall, and there is none
    NoHall,
    // the hall refuses
    Hall(Fault),
}

impl ScriptFault {
    // The byte of the line, counted from 1, that this refusal points at.
    pub fn byte(self) -> usize
        ensures { result ≡ script_byte self }
    {
        match self {
            ScriptFault::Misread(misread) => misread.byte(),
            _ => 1,
        }
    }
}

// The number of a refusal.
impl From<ScriptFault> for u32 {
    ghost from_gives = { λ f n. n ≡ script_number f };

    fn from(fault: ScriptFault) -> u32 {
        match fault {
            ScriptFault::Misread(misread) => u32::from(misread),
            ScriptFault::NoHall => 34,
            ScriptFault::Hall(fault) => u32::from(fault),
        }
    }
}

impl From<Misread> for ScriptFault {
    ghost from_gives = { λ m r. r ≡ Misreading m };

    fn from(why: Misread) -> ScriptFault {
        ScriptFault::Misread(why)
    }
}

impl From<Fault> for ScriptFault {
    ghost from_gives = { λ f r. r ≡ Refusing f };

    fn from(why: Fault) -> ScriptFault {
        ScriptFault::Hall(why)
    }
}
