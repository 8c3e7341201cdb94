// Three boards and a server tell each other their records in frames until nobody has a verdict, and end as the bench does.
#![tactic(auto)]

mod bench;
mod seat;

use bench::{compare, settled};
use board::EarFault;
use rules::Status;
use seat::{Seat, exchange};
use std::io;

// The frame of a record C, 255 and 0 m that left by port 0.
const FRAME: [u8; 16] = [16, 0, 1, 0, 1, 255, 0, 0, 0, 0, 0, 0, 0, 0, 0, 0];

// The four boards of the hall: board 0 is the server.
type Floor = [Seat; 4];

// Each board hears what its neighbours told last, over the four cables of the hall.
fn deliver(rt: &HostRuntime, floor: Floor) -> io::Result<Floor> {
    let [server, one, two, three] = floor;
    let (server, one) = exchange(rt, server, 0, one, 0)?;
    let (one, two) = exchange(rt, one, 1, two, 0)?;
    let (two, three) = exchange(rt, two, 1, three, 0)?;
    let (server, three) = exchange(rt, server, 1, three, 1)?;
    Ok([server, one, two, three])
}

// The hall's boards, two of them isolated. Board 2 starts from garbage: a length that no way has.
fn set_up() -> Result<Floor, EarFault> {
    Ok([
        Seat::begin(0, Status::I, 0, 0, [Some(40), Some(200)])?,
        Seat::begin(1, Status::I, 255, 0, [Some(40), Some(30)])?,
        Seat::begin(2, Status::C, 1, 3, [Some(30), Some(20)])?,
        Seat::begin(3, Status::I, 255, 0, [Some(20), Some(200)])?,
    ])
}

// A board without cables refuses every frame, and still moves and tells: to nobody.
fn lone(rt: &HostRuntime) -> io::Result<()> {
    let Ok(seat) = Seat::begin(4, Status::EB, 2, 9, [None, None]) else {
        return println!(rt; "a board cannot begin");
    };
    println!(rt; "alone")?;
    let _ = seat.hear(rt, 5, FRAME)?.act(rt)?.act(rt)?;
    Ok(())
}

fn main(rt: HostRuntime) -> io::Result<()> {
    let Ok(mut floor) = set_up() else {
        return println!(rt; "a board cannot begin");
    };
    for round in 1..20u32 {
        println!(rt; "round {round}")?;
        floor = deliver(&rt, floor)?.try_map(|seat| seat.act(&rt))?;
        if !floor.iter().any(|seat| seat.moved) {
            break;
        }
    }
    let Ok(hall) = settled() else {
        return println!(rt; "the bench refuses the hall");
    };
    for seat in &floor {
        compare(&rt, &hall, seat)?;
    }
    lone(&rt)
}
