ghost use Rattle.lengths.specs.Metres.{metres};
ghost use Rattle.lengths.specs.MetresLaws.{metres_laws, metres_ordered};

use crate::length::Length;
use crate::metres::Metres;

impl Length for Metres {
    ghost meaning = { metres };

    ghost lawful = { metres_laws };

    ghost ordered = { metres_ordered };

    fn start() -> Metres {
        Metres { value: 0 }
    }

    fn ceiling() -> Metres {
        Metres { value: u32::MAX }
    }

    fn admits(weight: u32) -> bool {
        (1..=65_535).contains(&weight)
    }

    fn extend(self, weight: u32) -> Option<Metres> {
        if !Metres::admits(weight) {
            return None;
        }
        let value = self.value.checked_add(weight)?;
        Some(Metres { value })
    }

    fn code(self) -> u64 {
        u64::from(self.value)
    }

    fn read(code: u64) -> Option<Metres> {
        let value = u32::try_from(code).ok()?;
        Some(Metres { value })
    }
}
