use crate::seat::Seat;
use hall::{Fault, Hall};
use lengths::Metres;
use pickers::All;
use std::io;

// The same hall on the bench, settled.
pub(crate) fn settled() -> Result<Hall<Metres>, Fault> {
    let mut hall = Hall::<Metres>::new(4)?;
    hall.wire(0, 0, 1, 0, 40)?;
    hall.wire(1, 1, 2, 0, 30)?;
    hall.wire(2, 1, 3, 0, 20)?;
    hall.wire(0, 1, 3, 1, 200)?;
    hall.plant(2, 1, 1, 3)?;
    hall.settle(&mut All);
    Ok(hall)
}

// A board's record beside the one that the bench has for it.
pub(crate) fn compare(rt: &HostRuntime, hall: &Hall<Metres>, seat: &Seat) -> io::Result<()> {
    let number = seat.number;
    let Ok(look) = hall.look(number) else {
        return println!(rt; "the bench has no board {number}");
    };
    let (own, record) = (seat.board.own(), look.record);
    let verdict = if own == record { "the same" } else { "another" };
    println!(rt; "board {number}: {own}; on the bench: {record}, {verdict}")
}
