ghost use Rattle.std.specs.Prelude.{◌≤◌, length};

use crate::fault::FrameFault;
use std::marker::PhantomData;

pub mod steps;

// A frame that cannot be read, and where in the stream its first byte is.
#[derive(Clone, Copy, Debug, PartialEq, Eq)]
pub struct Fault {
    pub place: usize,
    pub fault: FrameFault,
}

// A stream of frames, and how far it was read.
#[derive(Drop)]
pub struct Reader<'a, L> {
    input: &'a [u8],
    place: usize,
    kind: PhantomData<L>,
    ghost within: { place ≤ length input.now },
}
