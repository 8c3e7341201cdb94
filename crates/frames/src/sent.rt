ghost use Rattle.frames.specs.Record.{Writes, Reads};

use crate::fault::FrameFault;
use lengths::Length;
use rules::{Record, Status};

// The last port of a board.
const LAST_PORT: u8 = 7;

// A record as a board told it, with the port that it left by.
#[derive(Clone, Copy)]
pub struct Sent<L> {
    pub record: Record<L>,
    pub port: u8,
}

// The frame of a record that leaves by a port, or nothing where a board has no such port.
pub fn write_frame<L: Length>(record: Record<L>, port: u8) -> Option<[u8; 16]>
    ensures { Writes L.Length.meaning «record» port result }
{
    if port > LAST_PORT {
        return None;
    }
    let status = u8::from(record.status);
    let par = record.par;
    let [a, b, c, d, e, f, g, h] = record.length.code().to_le_bytes();
    // The head is written out, as the whole frame is: length 16, and the kind of a record.
    Some([16, 0, 1, 0, status, par, port, 0, a, b, c, d, e, f, g, h])
}

// The record and the port that the fields of a record frame tell; its first four bytes are not looked at.
pub fn read_record<L: Length>(frame: &[u8; 16]) -> Result<Sent<L>, FrameFault>
    ensures { Reads L.Length.meaning frame.now result }
{
    let [_, _, _, _, number, par, port, zero, a, b, c, d, e, f, g, h] = *frame;
    let status = Status::try_from(u32::from(number)).map_err(|_| FrameFault::Field)?;
    if port > LAST_PORT || zero != 0 {
        return Err(FrameFault::Field);
    }
    let code = u64::from_le_bytes([a, b, c, d, e, f, g, h]);
    let length = L::read(code).ok_or(FrameFault::Code)?;
    let record = Record {
        status,
        par,
        length,
    };
    Ok(Sent { record, port })
}
