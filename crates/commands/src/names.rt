// The words that a script is written with.
// A word that is no name is no error of its own, the caller says which it is: so these functions answer an Option, and are no TryFrom.
ghost use Rattle.std.specs.Prelude.{◌≡◌, MatchOption, ◌≢◌};
ghost use Rattle.commands.specs.Fields.{name_of, kind_name, picker_name};

use crate::command::{Kind, PickerName};
use crate::verb::Verb;

// The verb that a word is.
pub(crate) fn verb_of(word: &[u8]) -> Option<Verb>
    ensures { MatchOption result ((v : Verb) → word.now ≢ name_of v) (λ v. word.now ≡ name_of v) }
{
    match word {
        b"new" => Some(Verb::New),
        b"wire" => Some(Verb::Wire),
        b"cut" => Some(Verb::Cut),
        b"plant" => Some(Verb::Plant),
        b"turn" => Some(Verb::Turn),
        b"settle" => Some(Verb::Settle),
        b"tally" => Some(Verb::Tally),
        b"show" => Some(Verb::Show),
        _ => None,
    }
}

// The kind of length that a word is.
pub(crate) fn kind_of(word: &[u8]) -> Option<Kind>
    ensures { MatchOption result ((k : Kind) → word.now ≢ kind_name k) (λ k. word.now ≡ kind_name k) }
{
    match word {
        b"metres" => Some(Kind::Metres),
        b"grade" => Some(Kind::Grade),
        _ => None,
    }
}

// The picker that a word names.
pub(crate) fn picker_of(word: &[u8]) -> Option<PickerName>
    ensures { MatchOption result ((p : PickerName) → word.now ≢ picker_name p) (λ p. word.now ≡ picker_name p) }
{
    match word {
        b"all" => Some(PickerName::All),
        b"ring" => Some(PickerName::Ring),
        _ => None,
    }
}
