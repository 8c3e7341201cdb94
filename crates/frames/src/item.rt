ghost use Rattle.frames.specs.Items.{RecordItem};
ghost use Rattle.frames.specs.Stream.{Begins};

use crate::fault::FrameFault;
use crate::head::{Head, RECORD, read_head};
use crate::sent::read_record;
use lengths::Length;

// What a frame tells: a record in numbers, the length by its code, or the whole frame where its kind is none of these. The numbers
// are as the bytes have them, so that an item names no kind of length.
#[derive(Clone, Copy, Debug, PartialEq, Eq)]
pub enum Item<'a> {
    Record {
        status: u8,
        par: u8,
        port: u8,
        code: u64,
    },
    Unknown {
        kind: u16,
        bytes: &'a [u8],
    },
}

// A frame at the front of some bytes: what it tells, and how many of them it takes.
#[derive(Clone, Copy, Debug, PartialEq, Eq)]
pub struct Framed<'a> {
    pub item: Item<'a>,
    pub size: usize,
}

// The frame that the bytes begin with, or why they begin with none.
pub fn first_frame<L: Length>(bytes: &[u8]) -> Result<Framed<'_>, FrameFault>
    ensures { Begins L.Length.meaning bytes.now result }
{
    let Head { size, kind } = read_head(bytes)?;
    let frame = &bytes[..size];
    let item = match kind {
        RECORD => record_item::<L>(frame)?,
        _ => Item::Unknown { kind, bytes: frame },
    };
    Ok(Framed { item, size })
}

// What a frame of the record's kind tells.
fn record_item<'a, L: Length>(frame: &[u8]) -> Result<Item<'a>, FrameFault>
    ensures { RecordItem L.Length.meaning frame.now result }
{
    let fields = frame.as_array::<16>().ok_or(FrameFault::Size)?;
    let sent = read_record::<L>(fields)?;
    Ok(Item::Record {
        status: u8::from(sent.record.status),
        par: sent.record.par,
        port: sent.port,
        code: sent.record.length.code(),
    })
}
