ghost use Rattle.std.specs.Prelude.{◌≡◌};
ghost use Rattle.board.specs.Faults.{ear_fault_number};
ghost use Rattle.board.specs.declared.fault.EarFault.TheVariants.{Frame};

use frames::FrameFault;

// Why a board end refuses a call.
#[derive(Clone, Copy, Debug, PartialEq, Eq)]
pub enum EarFault {
    // the weight of a wired port is not admitted
    Weight,
    // no such status, par or code
    Record,
    // the bytes are no frame
    Frame(FrameFault),
    // the frame is no record's, or bytes follow it
    Alien,
    // the port is not wired
    Unwired,
    // a wired port was not heard
    Unheard,
    // the output has no room for a frame at each wired port
    Room,
    // the ear has not 128 bytes
    Ear,
}

impl From<FrameFault> for EarFault {
    ghost from_gives = { λ fault why. why ≡ Frame fault };

    fn from(why: FrameFault) -> EarFault {
        EarFault::Frame(why)
    }
}

// The number that a refusal returns.
impl From<EarFault> for u32 {
    ghost from_gives = { λ fault number. number ≡ ear_fault_number fault };

    fn from(fault: EarFault) -> u32 {
        match fault {
            EarFault::Weight => 7,
            EarFault::Record => 9,
            EarFault::Frame(fault) => u32::from(fault),
            EarFault::Alien => 25,
            EarFault::Unwired => 26,
            EarFault::Unheard => 27,
            EarFault::Room => 28,
            EarFault::Ear => 29,
        }
    }
}
