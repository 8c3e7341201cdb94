// Sets of boards as the bits of a u64: bit b stands for board b. Functions and no type of their own, since halls, pickers and
// boards hand sets on as bare numbers.
#![tactic(auto)]

mod members;

ghost use Rattle.std.specs.Prelude.{◌≡◌, ℕ, ◌≤◌, true, false, not, ◌&&◌, ◌||◌, MatchOption, ◌==◌, nat_lt};
ghost use Rattle.sets.specs.Counts.{Count};
ghost use Rattle.sets.specs.Sets.{has, LeastFrom};

pub use members::Members;

// Whether the board is in the set.
pub fn contains(set: u64, board: u32) -> bool
    ensures { result ≡ has set board }
{
    board < 64 && (set >> board) % 2 == 1
}

// The set with one board more; a number that no bit stands for adds nothing.
pub fn with(set: u64, board: u32) -> u64
    ensures { (b : ℕ) → has result b ≡ (has set b || (b == board && nat_lt board 64)) }
{
    if board < 64 { set | 1 << board } else { set }
}

// The boards of both sets.
pub fn union(set: u64, other: u64) -> u64
    ensures { (b : ℕ) → has result b ≡ (has set b || has other b) }
{
    set | other
}

// The boards of the set that are not in the other.
pub fn without(set: u64, other: u64) -> u64
    ensures { (b : ℕ) → has result b ≡ (has set b && not (has other b)) }
{
    set & !other
}

// How many boards the set has.
pub fn size(set: u64) -> u32
    ensures { Count (λ b. has set b ≡ true) 64 result }
{
    set.count_ones()
}

// The least board of the set from `from` on, if there is one.
#[tactic(auto, using(crate::proofs::Bits::none_from, crate::proofs::Bits::none_past))]
pub fn least_from(set: u64, from: u32) -> Option<u32>
    ensures { MatchOption result ((b : ℕ) → from ≤ b → has set b ≡ false) (LeastFrom set from) }
{
    let rest = set.checked_shr(from)?;
    if rest == 0 {
        return None;
    }
    Some(from + rest.trailing_zeros())
}
