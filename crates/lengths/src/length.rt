ghost use Rattle.std.specs.Prelude.{◌≡◌};
ghost use Rattle.std.specs.Ordering.{is_lt};
ghost use Rattle.lengths.specs.Kind.{Kind, Laws};

// A kind of length. `meaning` says all that a kind is, and each call answers exactly what it says;
// `lawful` is the proof that the meaning keeps the laws on which the rules rest.
pub trait Length: Copy + Ord {
    ghost meaning: { Kind Self };

    ghost lawful: { Laws meaning };

    // The length of the walk along no cable.
    fn start() -> Self
        ensures { result ≡ meaning.start };

    // The greatest value.
    fn ceiling() -> Self
        ensures { result ≡ meaning.ceiling };

    // Whether a cable may have this weight.
    fn admits(weight: u32) -> bool
        ensures { result ≡ meaning.admitted weight };

    // The longer value over a cable, or nothing where the weight is not admitted or the ceiling would be passed.
    fn extend(self, weight: u32) -> Option<Self>
        ensures { result ≡ meaning.extended self weight };

    // `code` and `read` are calls of the kind and no `Into` and `TryFrom`, whose meanings would be two more laws to state.
    fn code(self) -> u64
        ensures { result ≡ meaning.coded self };

    // The value of a code, or nothing where no value has it.
    fn read(code: u64) -> Option<Self>
        ensures { result ≡ meaning.decoded code };

    // Values are compared as the meaning compares them.
    ghost ordered: { (a b : Self) → is_lt (Self.Ord.cmp a b) ≡ meaning.less a b };
}
