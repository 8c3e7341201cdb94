ghost use Rattle.std.specs.Prelude.{◌≡◌, Some};
ghost use Rattle.hall.specs.Texts.{tally_text, look_text};
ghost use Rattle.rules.specs.Texts.{verdict_name};

use crate::questions::Look;
use crate::tables::Tally;
use lengths::Length;
use rules::Verdict;
use std::fmt;

// The counts in the order RC REB REF RI RR.
impl fmt::Display for Tally {
    ghost output = { λ t. Some (tally_text t) };

    fn fmt<W: fmt::Write>(&self, f: &mut fmt::Formatter<W>) -> fmt::Result {
        let Tally {
            corrected,
            broadcast,
            fedback,
            isolated,
            rejoined,
        } = *self;
        write!(f, "{corrected} {broadcast} {fedback} {isolated} {rejoined}")
    }
}

// The word of a verdict, or a sign that there is none: it cannot fail either.
fn verdict_word(verdict: Option<Verdict>) -> &'static str
    ensures { result.now ≡ verdict_name verdict }
{
    verdict.map_or("-", Verdict::word)
}

// The record and the verdict, or `-` where there is none.
impl<L: Length> fmt::Display for Look<L> {
    ghost output = { λ look. Some (look_text L.Length.meaning look) };

    fn fmt<W: fmt::Write>(&self, f: &mut fmt::Formatter<W>) -> fmt::Result {
        let verdict = verdict_word(self.verdict);
        write!(f, "{} {verdict}", self.record)
    }
}
