ghost use Rattle.std.specs.Prelude.{◌≡◌};
ghost use Rattle.frames.specs.Faults.{frame_fault_number};

// Why bytes are no frame, in the order in which they are looked at, each by its number.
#[derive(Clone, Copy, Debug, PartialEq, Eq)]
pub enum FrameFault {
    // Fewer than four bytes are left.
    Short = 20,
    // The length is under four, or goes past the last byte.
    Extent = 21,
    // A record frame that has not 16 bytes.
    Size = 22,
    // A status above 3, a port above 7, or a byte 7 that is not 0.
    Field = 23,
    // No length has the code.
    Code = 24,
}

impl From<FrameFault> for u32 {
    ghost from_gives = { λ fault number. number ≡ frame_fault_number fault };

    fn from(fault: FrameFault) -> u32 {
        fault as u32
    }
}
