ghost use Rattle.lengths.specs.Grade.{grade};
ghost use Rattle.lengths.specs.GradeLaws.{grade_laws, grade_ordered};

use crate::grade::Grade;
use crate::length::Length;

impl Length for Grade {
    ghost meaning = { grade };

    ghost lawful = { grade_laws };

    ghost ordered = { grade_ordered };

    fn start() -> Grade {
        Grade { hops: 0, worst: 0 }
    }

    fn ceiling() -> Grade {
        Grade {
            hops: u16::MAX,
            worst: u8::MAX,
        }
    }

    fn admits(weight: u32) -> bool {
        (1..=255).contains(&weight)
    }

    fn extend(self, weight: u32) -> Option<Grade> {
        if !Grade::admits(weight) {
            return None;
        }
        let hops = self.hops.checked_add(1)?;
        let worst = self.worst.max(weight as u8);
        Some(Grade { hops, worst })
    }

    fn code(self) -> u64 {
        u64::from(self.hops) * 256 + u64::from(self.worst)
    }

    fn read(code: u64) -> Option<Grade> {
        let hops = u16::try_from(code / 256).ok()?;
        let worst = (code % 256) as u8;
        Some(Grade { hops, worst })
    }
}
