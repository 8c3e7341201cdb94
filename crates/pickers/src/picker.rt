ghost use Rattle.std.specs.Prelude.{◌≡◌, ℕ, ◌^◌, ◌<◌};
ghost use Rattle.pickers.specs.Choices.{Chooses};

// Chooses boards of a set. In each state it means, for each set, one choice and one next state.
pub trait Picker {
    ghost picks: { Self → ℕ → ℕ × Self };

    fn ask(&mut self, boards: u64) -> u64
        ensures answer { result ≡ (picks self.old boards).0 }
        ensures next { self.new ≡ (picks self.old boards).1 };

    // It chooses only boards of the set, and nobody only of the empty set.
    ghost chooses: { (p : Self) (s : ℕ) → s < 2 ^ 64 → Chooses (picks p s).0 s };
}
