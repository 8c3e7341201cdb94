ghost use Rattle.std.specs.Prelude.{◌≡◌, Some};
ghost use Rattle.rules.specs.Texts.{status_name, rule_name, record_text};

use crate::record::Record;
use crate::status::Status;
use crate::verdict::Verdict;
use lengths::Length;
use std::fmt;

impl Status {
    // The word of a status, from a function that cannot fail: a `fmt` may answer an error, of which its contract says nothing.
    fn word(self) -> &'static str
        ensures { result.now ≡ status_name self }
    {
        match self {
            Status::I => "I",
            Status::C => "C",
            Status::EB => "EB",
            Status::EF => "EF",
        }
    }
}

impl Verdict {
    // The word of a rule.
    pub fn word(self) -> &'static str
        ensures { result.now ≡ rule_name self }
    {
        match self {
            Verdict::RC => "RC",
            Verdict::REB => "REB",
            Verdict::REF => "REF",
            Verdict::RI => "RI",
            Verdict::RR => "RR",
        }
    }
}

// A status by its word.
impl fmt::Display for Status {
    ghost output = { λ s. Some (status_name s) };

    fn fmt<W: fmt::Write>(&self, f: &mut fmt::Formatter<W>) -> fmt::Result {
        f.write_str(self.word())
    }
}

// A rule by its word.
impl fmt::Display for Verdict {
    ghost output = { λ v. Some (rule_name v) };

    fn fmt<W: fmt::Write>(&self, f: &mut fmt::Formatter<W>) -> fmt::Result {
        f.write_str(self.word())
    }
}

// A record: its status, its par and the code of its length.
impl<L: Length> fmt::Display for Record<L> {
    ghost output = { λ own. Some (record_text L.Length.meaning own) };

    fn fmt<W: fmt::Write>(&self, f: &mut fmt::Formatter<W>) -> fmt::Result {
        write!(f, "{} {} {}", self.status, self.par, self.length.code())
    }
}
