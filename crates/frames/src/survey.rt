ghost use Rattle.frames.specs.Reading.{Surveyed};

use crate::item::Item;
use crate::reader::{Fault, Reader};
use lengths::Length;

// How many frames of each kind a stream has, and the fault that it stops at, if any.
#[derive(Clone, Copy, Debug, Default, PartialEq, Eq)]
pub struct Survey {
    pub records: usize,
    pub unknown: usize,
    pub stop: Option<Fault>,
}

// Reads a stream to its end or to its first fault.
pub fn survey_stream<L: Length>(bytes: &[u8]) -> Survey
    ensures { Surveyed L.Length.meaning bytes.now result }
{
    let mut reader = Reader::<L>::new(bytes);
    let mut survey = Survey::default();
    while let Some(step) = reader.next() {
        match step {
            Ok(Item::Record { .. }) => survey.records += 1,
            Ok(Item::Unknown { .. }) => survey.unknown += 1,
            Err(fault) => {
                survey.stop = Some(fault);
                break;
            }
        }
    }
    survey
}
