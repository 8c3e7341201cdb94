ghost use Rattle.std.specs.Prelude.{◌^◌, ◌<◌};

pub mod measure;

// The number of cables gone along, and the worst grade among them.
#[derive(Clone, Copy, PartialEq, Eq, PartialOrd, Ord)]
pub struct Grade {
    hops: u16,
    worst: u8,
    ghost few: { hops < 2 ^ 16 },
    ghost graded: { worst < 2 ^ 8 },
}
