ghost use Rattle.std.specs.Prelude.{◌≡◌, ℕ, ◌<◌, [], length, slice_index_or, MatchBool};
ghost use Rattle.board.specs.Hear.{slot_at};
ghost use Rattle.board.specs.Ready.{AllHeard, SomeUnheard, ChecksSlots, ChecksReady, Readies};

use crate::fault::EarFault;
use crate::hear::check_frame;
use crate::ports::Ports;
use crate::states::{Listening, Ready};
use lengths::Length;
use sets::contains;
use std::marker::PhantomData;

// The slots of the ports.
pub(crate) fn slots(ear: &[u8; 128]) -> &[[u8; 16]]
    ensures eight { length result.now ≡ 8 }
    ensures each { (p : ℕ) → p < 8 → slice_index_or result.now p [] ≡ slot_at ear.now p }
{
    let (slots, _) = ear.as_chunks::<16>();
    slots
}

// Whether every wired port was heard.
fn all_heard(ports: Ports, heard: u64) -> bool
    ensures { MatchBool result (AllHeard ports heard) (SomeUnheard ports heard) }
{
    (0..8).all(|port| !ports.wired(port) || contains(heard, port))
}

// Whether every wired slot holds a record's frame, or what is wrong with the first that does not.
fn check_slots<L: Length>(ports: Ports, ear: &[u8; 128]) -> Result<(), EarFault>
    ensures { ChecksSlots L.Length.meaning ports ear.now result }
{
    for (port, slot) in slots(ear).iter().enumerate() {
        if ports.wired(port as u32) {
            check_frame::<L>(slot)?;
        }
    }
    Ok(())
}

impl<L: Length> Listening<L> {
    // The whole ear, where the board may move by it: its size, then the ports, then the slots.
    fn check_ready<'e>(&self, ear: &'e [u8]) -> Result<&'e [u8; 128], EarFault>
        ensures { ChecksReady L.Length.meaning self.now ear.now result }
    {
        let whole = ear.as_array::<128>().ok_or(EarFault::Ear)?;
        if !all_heard(self.station.ports, self.heard) {
            return Err(EarFault::Unheard);
        }
        check_slots::<L>(self.station.ports, whole)?;
        Ok(whole)
    }

    // Makes the board ready to move by what it heard, and looks at the slots again, since others may have written there.
    pub fn ready<'e>(self, ear: &'e [u8]) -> Result<Ready<'e, L>, (Listening<L>, EarFault)>
        ensures { Readies L.Length.meaning self ear.now result }
    {
        self.check_ready(ear)
            .map(|ear| Ready {
                station: self.station,
                ear,
                kind: PhantomData,
            })
            .map_err(|fault| (self, fault))
    }
}
