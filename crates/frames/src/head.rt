ghost use Rattle.frames.specs.Head.{ReadsHead};

use crate::fault::FrameFault;

// The kind of a record frame.
pub const RECORD: u16 = 1;

// What a frame begins with: how many bytes it takes, these four included, and of what kind it is.
#[derive(Clone, Copy, Debug, PartialEq, Eq)]
pub struct Head {
    pub size: usize,
    pub kind: u16,
}

// The head that the bytes begin with, if they go on for as long as it says.
pub fn read_head(bytes: &[u8]) -> Result<Head, FrameFault>
    ensures { ReadsHead bytes.now result }
{
    let &[a, b, c, d, ..] = bytes else {
        return Err(FrameFault::Short);
    };
    let size = usize::from(u16::from_le_bytes([a, b]));
    if size < 4 || size > bytes.len() {
        return Err(FrameFault::Extent);
    }
    let kind = u16::from_le_bytes([c, d]);
    Ok(Head { size, kind })
}
