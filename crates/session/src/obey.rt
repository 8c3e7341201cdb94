ghost use Rattle.session.specs.Replies.{TurnsBoards, SettlesNamed, Obeys};

use crate::fault::ScriptFault;
use commands::{Boards, Command, PickerName};
use hall::{Fault, Hall, Tally};
use lengths::Length;
use pickers::{All, Ring};

// What an accepted command answers.
#[derive(Clone, Copy)]
pub enum Reply {
    Done,
    Moved(u32),
    Counts(Tally),
    // the boards as they are now
    Boards,
}

// The named boards move together. No hall has a board from 64 on.
fn turn<L: Length>(hall: &mut Hall<L>, boards: Boards) -> Result<u32, Fault>
    ensures { TurnsBoards L.Length.meaning hall.old boards result hall.new }
{
    if boards.beyond {
        return Err(Fault::Board);
    }
    hall.turn(boards.set)
}

// Settles with a new picker of this name. (Each picker has a call of its own: a `&mut dyn Picker` meets no bound `P: Picker`.)
fn settle<L: Length>(hall: &mut Hall<L>, name: PickerName)
    ensures { SettlesNamed L.Length.meaning name hall.old hall.new }
{
    match name {
        PickerName::All => hall.settle(&mut All),
        PickerName::Ring => hall.settle(&mut Ring::new()),
    }
}

// A hall obeys a command. It makes no other hall: that is the session's to do.
pub(crate) fn obey<L: Length>(hall: &mut Hall<L>, command: Command) -> Result<Reply, ScriptFault>
    ensures { Obeys L.Length.meaning hall.old command result hall.new }
{
    match command {
        Command::New { .. } => Err(ScriptFault::NoHall),
        Command::Wire { a, p, b, q, weight } => {
            hall.wire(a, p, b, q, weight)?;
            Ok(Reply::Done)
        }
        Command::Cut { board, port } => {
            hall.cut(board, port)?;
            Ok(Reply::Done)
        }
        Command::Plant {
            board,
            status,
            par,
            code,
        } => {
            hall.plant(board, status, par, code)?;
            Ok(Reply::Done)
        }
        Command::Turn(boards) => Ok(Reply::Moved(turn(hall, boards)?)),
        Command::Settle(name) => {
            settle(hall, name);
            Ok(Reply::Done)
        }
        Command::Tally { board } => Ok(Reply::Counts(hall.tally(board)?)),
        Command::Show => Ok(Reply::Boards),
    }
}
