// Reads stored streams of frames, good and damaged, and prints what each frame tells and where.
#![tactic(auto)]

use frames::{Item, Reader, survey_stream, write_frame};
use lengths::{Length, Metres};
use rules::{Record, Status};
use std::io;

// C, par 3, port 2 and 70,000 m; a frame of kind 521; and EF, par 255, port 7 and the ceiling.
const GOOD: &[u8; 39] = b"\
    \x10\x00\x01\x00\x01\x03\x02\x00\x70\x11\x01\x00\x00\x00\x00\x00\
    \x07\x00\x09\x02\x41\x42\x43\
    \x10\x00\x01\x00\x03\xff\x07\x00\xff\xff\xff\xff\x00\x00\x00\x00";

// A record, and then a frame that stops short.
const SHORT: &[u8; 18] = b"\
    \x10\x00\x01\x00\x00\x00\x00\x00\x00\x00\x00\x00\x00\x00\x00\x00\
    \x10\x00";

// A frame of no body, and then a length of three.
const EXTENT: &[u8; 8] = b"\
    \x04\x00\x05\x00\
    \x03\x00\x05\x00";

// A record's kind, and 17 bytes.
const SIZE: &[u8; 17] = b"\
    \x11\x00\x01\x00\x00\x00\x00\x00\x00\x00\x00\x00\x00\x00\x00\x00\x00";

// A byte 7 that is not 0 between two good records: the second is never reached.
const FIELD: &[u8; 48] = b"\
    \x10\x00\x01\x00\x01\x00\x00\x00\x00\x00\x00\x00\x00\x00\x00\x00\
    \x10\x00\x01\x00\x01\x00\x00\x01\x00\x00\x00\x00\x00\x00\x00\x00\
    \x10\x00\x01\x00\x01\x00\x00\x00\x00\x00\x00\x00\x00\x00\x00\x00";

// A code of 2^32, which is one more than the ceiling.
const CODE: &[u8; 16] = b"\
    \x10\x00\x01\x00\x01\x00\x00\x00\x00\x00\x00\x00\x01\x00\x00\x00";

fn show_item(rt: &HostRuntime, item: Item<'_>) -> io::Result<()> {
    match item {
        Item::Record {
            status,
            par,
            port,
            code,
        } => println!(rt; "  record: status {status}, par {par}, port {port}, code {code}"),
        Item::Unknown { kind, bytes } => println!(rt; "  kind {kind}: {} bytes", bytes.len()),
    }
}

fn show_stream(rt: &HostRuntime, name: &str, bytes: &[u8]) -> io::Result<()> {
    let survey = survey_stream::<Metres>(bytes);
    println!(rt;
        "{name}: {} records, {} of other kinds",
        survey.records, survey.unknown
    )?;
    let mut reader = Reader::<Metres>::new(bytes);
    while let Some(next) = reader.next() {
        match next {
            Ok(item) => show_item(rt, item)?,
            Err(fault) => {
                return println!(rt; "  fault {} at {}", u32::from(fault.fault), fault.place);
            }
        }
    }
    println!(rt; "  end")
}

fn show_written(rt: &HostRuntime, code: u64, port: u8) -> io::Result<()> {
    let Some(length) = Metres::read(code) else {
        return println!(rt; "no length has the code {code}");
    };
    let record = Record {
        status: Status::EB,
        par: 4,
        length,
    };
    match write_frame(record, port) {
        Some(frame) => {
            println!(rt; "written: {frame:?}")?;
            show_stream(rt, "read again", &frame)
        }
        None => println!(rt; "no port {port}"),
    }
}

fn main(rt: HostRuntime) -> io::Result<()> {
    show_stream(&rt, "good", GOOD)?;
    show_stream(&rt, "empty", &[])?;
    show_stream(&rt, "short", SHORT)?;
    show_stream(&rt, "extent", EXTENT)?;
    show_stream(&rt, "size", SIZE)?;
    show_stream(&rt, "field", FIELD)?;
    show_stream(&rt, "code", CODE)?;
    show_written(&rt, 258, 6)?;
    show_written(&rt, 258, 8)?;
    show_written(&rt, 4_294_967_296, 0)
}
