ghost use Rattle.std.specs.Prelude.{ℕ, List, [], ◌∷◌, ◌++◌};
ghost use Rattle.commands.specs.Sets.{SetOf};

// No hall has more boards, and a set has a bit for each.
const BOARDS: u32 = 64;

// The boards that a turn names: those below 64 as bits, and whether any other is named.
// No Option: what the set holds is promised also where `beyond` is true.
#[derive(Clone, Copy, Debug, Default, PartialEq, Eq)]
pub struct Boards {
    pub set: u64,
    pub beyond: bool,
}

impl Boards {
    // These boards and one more.
    pub(crate) fn with(self, board: u32) -> Boards
        ensures { (ns : List ℕ) → SetOf self ns → SetOf result (ns ++ board ∷ []) }
    {
        Boards {
            set: sets::with(self.set, board),
            beyond: self.beyond || board >= BOARDS,
        }
    }
}
