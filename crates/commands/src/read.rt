ghost use Rattle.commands.specs.Commands.{Reading};
ghost use Rattle.commands.specs.Steps.{Answered};

use crate::command::Command;
use crate::fields::{named_boards, numbers, opening};
use crate::misread::Misread;
use crate::names::{picker_of, verb_of};
use crate::verb::Verb;

// A longer line is malformed.
const LONGEST: usize = 200;

// The command of a verb and its fields, or how many bytes are left from the first field on that does not fit.
fn command_of(verb: Verb, fields: &[u8]) -> Result<Command, usize>
    ensures { Answered verb fields.now result }
{
    match verb {
        Verb::New => {
            let (boards, kind) = opening(fields)?;
            Ok(Command::New { boards, kind })
        }
        Verb::Wire => {
            let [a, p, b, q, weight] = numbers::<5>(fields)?;
            Ok(Command::Wire { a, p, b, q, weight })
        }
        Verb::Cut => {
            let [board, port] = numbers::<2>(fields)?;
            Ok(Command::Cut { board, port })
        }
        Verb::Plant => {
            let [board, status, par, code] = numbers::<4>(fields)?;
            Ok(Command::Plant {
                board,
                status,
                par,
                code: u64::from(code),
            })
        }
        Verb::Turn => Ok(Command::Turn(named_boards(fields)?)),
        // The only field is all that is left.
        Verb::Settle => {
            let picker = picker_of(fields).ok_or(fields.len())?;
            Ok(Command::Settle(picker))
        }
        Verb::Tally => {
            let [board] = numbers::<1>(fields)?;
            Ok(Command::Tally { board })
        }
        Verb::Show => Ok(Command::Show),
    }
}

// The command that a line says.
pub fn read_command(line: &[u8]) -> Result<Command, Misread>
    ensures { Reading line.now result }
{
    if line.len() > LONGEST {
        return Err(Misread::Malformed);
    }
    let count = words::word_count(line).ok_or(Misread::Malformed)?;
    let (word, fields) = words::first(line, b' ');
    let verb = verb_of(word).ok_or(Misread::Unknown)?;
    if !verb.takes(count - 1) {
        return Err(Misread::Count);
    }
    command_of(verb, fields).map_err(|left| Misread::Field {
        byte: line.len() - left + 1,
    })
}
