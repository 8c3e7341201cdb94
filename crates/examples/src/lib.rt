// Worked examples of lengths, rules, turns and pickers, proved against their definitions.
#![tactic(auto)]

ghost use Rattle.std.specs.Prelude.{◌≡◌, [], ◌∷◌};
ghost use Rattle.examples.specs.Hall.{settled_h};
ghost use Rattle.examples.specs.Examples.{Examples};

// The lengths, in metres, of the example hall's boards once it is settled.
pub fn example_lengths() -> [u32; 4]
    ensures settled { result ≡ (settled_h 0).length.value ∷ (settled_h 1).length.value ∷ (settled_h 2).length.value ∷ (settled_h 3).length.value ∷ [] }
    ensures examples { Examples }
{
    [0, 40, 70, 5]
}
