ghost use Rattle.std.specs.Prelude.{◌≡◌};
ghost use Rattle.rules.specs.Rules.{rule_of};

// The rule by which an enabled board moves.
#[derive(Clone, Copy, Debug, PartialEq, Eq)]
pub enum Verdict {
    RC,
    REB,
    REF,
    RI,
    RR,
}

// How a board would move: its verdict, with the port whose offer it takes where the rule takes one.
#[derive(Clone, Copy, Debug, PartialEq, Eq)]
pub enum Plan {
    RC { port: u8 },
    REB,
    REF,
    RI,
    RR { port: u8 },
}

impl Plan {
    pub fn verdict(self) -> Verdict
        ensures { result ≡ rule_of self }
    {
        match self {
            Plan::RC { .. } => Verdict::RC,
            Plan::REB => Verdict::REB,
            Plan::REF => Verdict::REF,
            Plan::RI => Verdict::RI,
            Plan::RR { .. } => Verdict::RR,
        }
    }
}
