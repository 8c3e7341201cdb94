ghost use Rattle.std.specs.Prelude.{Decides};
ghost use Rattle.commands.specs.Fields.{Counts};

// The first word of a command.
#[derive(Clone, Copy, Debug, PartialEq, Eq)]
pub(crate) enum Verb {
    New,
    Wire,
    Cut,
    Plant,
    Turn,
    Settle,
    Tally,
    Show,
}

impl Verb {
    // Whether a verb may have so many fields.
    pub(crate) fn takes(self, count: usize) -> bool
        ensures { Decides result (Counts self count) }
    {
        match self {
            Verb::New | Verb::Cut => count == 2,
            Verb::Wire => count == 5,
            Verb::Plant => count == 4,
            Verb::Turn => true,
            Verb::Settle | Verb::Tally => count == 1,
            Verb::Show => count == 0,
        }
    }
}
