// Cuts a script into lines and a line into words, and reads numerals. Nothing is copied: the pieces borrow the script.
#![tactic(auto)]

mod lines;

ghost use Rattle.std.specs.Prelude.{◌≡◌, ℕ, [], Decides, MatchOption};
ghost use Rattle.words.specs.Pieces.{First};
ghost use Rattle.words.specs.Lines.{FirstLine};
ghost use Rattle.words.specs.Words.{Word, Counted};
ghost use Rattle.words.specs.Numerals.{Numeral};

pub use lines::Lines;

// A numeral has no more digits than this.
const DIGITS: usize = 10;

// The bytes before the first `stop`, and those after it, of which there are none where it is not there.
pub fn first(bytes: &[u8], stop: u8) -> (&[u8], &[u8])
    ensures { First stop result.0.now result.1.now bytes.now }
{
    match bytes.iter().position(|b| *b == stop) {
        Some(at) => (&bytes[..at], &bytes[at + 1..]),
        None => (bytes, &[]),
    }
}

// The first line of a script, and the script that follows it. None where the script is empty, since no line begins at its end.
pub fn next_line(script: &[u8]) -> Option<(&[u8], &[u8])>
    ensures { MatchOption result (script.now ≡ []) (λ p. FirstLine p.0.now p.1.now script.now) }
{
    if script.is_empty() {
        None
    } else {
        Some(first(script, b'\n'))
    }
}

// Whether the bytes are one word.
fn is_word(bytes: &[u8]) -> bool
    ensures { Decides result (Word bytes.now) }
{
    !bytes.is_empty() && bytes.iter().all(u8::is_ascii_graphic)
}

// How many words a line has. None where it is not words parted by single spaces.
pub fn word_count(line: &[u8]) -> Option<usize>
    ensures { Counted line.now result }
{
    // No `try_fold`: that its closure's sum fits stays unproved.
    let mut count: usize = 0;
    for word in line.split(|b| *b == b' ') {
        if !is_word(word) {
            return None;
        }
        count += 1;
    }
    Some(count)
}

// The number that one to ten decimal digits write. None for any other bytes, and where it takes more than 32 bits.
#[tactic(auto, using(crate::proofs::Digits::value_fits))]
pub fn number(word: &[u8]) -> Option<u32>
    ensures { MatchOption result ((n : ℕ) → Numeral word.now n → ⊥) (Numeral word.now) }
{
    if word.is_empty() || word.len() > DIGITS {
        return None;
    }
    // No `parse`, which takes a sign too, and no `try_fold`: that its closure's product fits, and what is returned, stayed open.
    let mut value: u64 = 0;
    for b in word {
        let digit = char::from(*b).to_digit(10)?;
        value = value * 10 + u64::from(digit);
    }
    u32::try_from(value).ok()
}
