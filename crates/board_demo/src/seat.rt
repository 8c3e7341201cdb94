use board::{EarFault, Listening, Ready};
use frames::{read_record, write_frame};
use lengths::Metres;
use rules::Status;
use std::io;

// What a board told: an output with room for a frame at every port, and how many of its bytes were told. Its size is fixed, as an
// ear's is, so that a telling allocates nothing.
#[derive(Clone, Copy)]
struct Told {
    out: [u8; 128],
    size: usize,
}

// A board at its place: its number, what it hears with, whether it moved last,
// and the frames that it told last, if it has told any.
#[derive(Drop)]
pub(crate) struct Seat {
    pub(crate) number: u32,
    pub(crate) board: Listening<Metres>,
    pub(crate) moved: bool,
    // the size that a board end's ear has
    ear: [u8; 128],
    told: Option<Told>,
}

// The board moves, tells its record, and says what it did; the answer also says whether it had a verdict.
fn go(
    rt: &HostRuntime,
    number: u32,
    ready: Ready<'_, Metres>,
) -> io::Result<(Listening<Metres>, bool, Told)> {
    let owing = ready.advance();
    let verdict = owing.verdict();
    let own = owing.own();
    let mut out = [0; 128];
    let (size, board) = owing.tell(&mut out).unwrap();
    print!(rt; "  board {number}: ")?;
    match verdict {
        Some(rule) => print!(rt; "{rule}")?,
        None => print!(rt; "no verdict")?,
    }
    println!(rt; ", tells {own} in {size} bytes")?;
    Ok((board, verdict.is_some(), Told { out, size }))
}

// Whether a frame tells a record that left by this port.
fn left_by(frame: &[u8; 16], port: u8) -> bool {
    read_record::<Metres>(frame).is_ok_and(|sent| sent.port == port)
}

impl Seat {
    // Board 0 begins as the root, and any other with this record; ports 0 and 1 have these weights where they are wired.
    pub(crate) fn begin(
        number: u32,
        status: Status,
        par: u32,
        code: u64,
        weights: [Option<u32>; 2],
    ) -> Result<Seat, EarFault> {
        let [low, high] = weights;
        let weights = [low, high, None, None, None, None, None, None];
        let board = Listening::begin(number == 0, u32::from(u8::from(status)), par, code, weights)?;
        Ok(Seat {
            number,
            board,
            moved: false,
            ear: [0; 128],
            told: None,
        })
    }

    // The board moves by what it heard, where it has heard all its neighbours.
    pub(crate) fn act(self, rt: &HostRuntime) -> io::Result<Seat> {
        let number = self.number;
        match self.board.ready(&self.ear) {
            Ok(ready) => {
                let (board, moved, told) = go(rt, number, ready)?;
                Ok(Seat {
                    board,
                    moved,
                    told: Some(told),
                    ..self
                })
            }
            Err((board, fault)) => {
                println!(rt; "  board {number} is not ready: {}", u32::from(fault))?;
                Ok(Seat {
                    board,
                    moved: false,
                    ..self
                })
            }
        }
    }

    // The frame that the board told last by a port, if it did; before it has told any, the frame of its record.
    fn frame_by(&self, port: u8) -> Option<[u8; 16]> {
        let Some(told) = &self.told else {
            return write_frame(self.board.own(), port);
        };
        let (slots, _) = told.out.as_chunks::<16>();
        let mut frames = slots.iter().take(told.size / 16).copied();
        frames.find(|frame| left_by(frame, port))
    }

    // The board hears a frame at a port, and says so.
    pub(crate) fn hear(mut self, rt: &HostRuntime, port: u8, frame: [u8; 16]) -> io::Result<Seat> {
        let number = self.number;
        match read_record::<Metres>(&frame) {
            Ok(sent) => println!(rt; "  board {number} hears at port {port}: {}", sent.record)?,
            Err(_) => println!(rt; "  board {number} hears at port {port}: nothing")?,
        }
        let board = match self.board.hear(&mut self.ear, u32::from(port), &frame) {
            Ok(board) => board,
            Err((board, fault)) => {
                println!(rt; "  and refuses it: {}", u32::from(fault))?;
                board
            }
        };
        Ok(Seat { board, ..self })
    }
}

// Over a cable each board hears what the other told by its end of it.
pub(crate) fn exchange(
    rt: &HostRuntime,
    a: Seat,
    p: u8,
    b: Seat,
    q: u8,
) -> io::Result<(Seat, Seat)> {
    match (a.frame_by(p), b.frame_by(q)) {
        (Some(by_a), Some(by_b)) => Ok((a.hear(rt, p, by_b)?, b.hear(rt, q, by_a)?)),
        _ => Ok((a, b)),
    }
}
