ghost use Rattle.std.specs.Prelude.{◌^◌, ◌<◌};

pub mod measure;

// A whole number of metres, from 0 to 4,294,967,295.
#[derive(Clone, Copy, PartialEq, Eq, PartialOrd, Ord)]
pub struct Metres {
    value: u32,
    ghost fits: { value < 2 ^ 32 },
}
