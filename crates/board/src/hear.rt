ghost use Rattle.std.specs.Prelude.{◌≡◌, ◌<◌, length};
ghost use Rattle.board.specs.Hear.{put, ChecksFrame, Hears};

use crate::fault::EarFault;
use crate::states::Listening;
use frames::{FrameFault, Head, RECORD, read_head, read_record};
use lengths::Length;
use sets::with;

// Whether bytes are a record's frame and nothing else, or what keeps them from being one.
pub(crate) fn check_frame<L: Length>(bytes: &[u8]) -> Result<(), EarFault>
    ensures { ChecksFrame L.Length.meaning bytes.now result }
{
    let Head { size, kind } = read_head(bytes)?;
    if kind != RECORD || size < bytes.len() {
        return Err(EarFault::Alien);
    }
    let fields = bytes.as_array::<16>().ok_or(FrameFault::Size)?;
    read_record::<L>(fields)?;
    Ok(())
}

// Puts a frame into the slot of a port, which is one slice of sixteen bytes.
fn put_frame(ear: &mut [u8; 128], port: u32, frame: &[u8])
    requires room { port < 8 }
    requires frame { length frame.now ≡ 16 }
    ensures { ear.new ≡ put ear.old port frame.now }
{
    let start = 16 * port as usize;
    ear[start..start + 16].copy_from_slice(frame);
}

impl<L: Length> Listening<L> {
    // Hears the record frame that came in at a port: puts it into the port's slot of the ear. The ear is looked at first, then
    // the port, then the frame; each refusal hands the board back, and a `?` or a `map_err` would take it from the next check.
    pub fn hear(
        self,
        ear: &mut [u8],
        port: u32,
        frame: &[u8],
    ) -> Result<Listening<L>, (Listening<L>, EarFault)>
        ensures { Hears L.Length.meaning self ear.old port frame.now result ear.new }
    {
        let Some(ear) = ear.as_mut_array::<128>() else {
            return Err((self, EarFault::Ear));
        };
        if !self.station.ports.wired(port) {
            return Err((self, EarFault::Unwired));
        }
        if let Err(fault) = check_frame::<L>(frame) {
            return Err((self, fault));
        }
        put_frame(ear, port, frame);
        Ok(Listening {
            heard: with(self.heard, port),
            ..self
        })
    }
}
