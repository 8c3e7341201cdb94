ghost use Rattle.std.specs.Prelude.{◌≡◌, ℕ, ◌≤◌, List, length, IfOk, string_bytes, OnOk};
ghost use Rattle.session.specs.Answers.{Opens, Replies, Printed, Answered};
ghost use Rattle.session.specs.Transcript.{Answering, Transcript};
ghost use Rattle.session.specs.Texts.{Appends};

use crate::fault::ScriptFault;
use crate::halls::AnyHall;
use crate::obey::Reply;
use commands::{Command, Kind, read_command};
use std::alloc::{AllocError, Global};
use words::Lines;

// The most bytes of a script that is answered: a longer one is refused as a whole.
pub const LONGEST: usize = 65_536;

// The hall that the lines so far have left, if there is one.
#[derive(Drop)]
struct Session {
    hall: Option<AnyHall>,
}

impl Session {
    // A new hall takes the place of the one before.
    fn open(&mut self, boards: u32, kind: Kind) -> Result<Reply, ScriptFault>
        ensures { Opens kind boards self.old.hall result self.new.hall }
    {
        self.hall = Some(AnyHall::new(boards, kind)?);
        Ok(Reply::Done)
    }

    // The answer to a line.
    fn reply(&mut self, line: &[u8]) -> Result<Reply, ScriptFault>
        ensures { Replies line.now self.old.hall result self.new.hall }
    {
        let command = read_command(line)?;
        if let Command::New { boards, kind } = command {
            return self.open(boards, kind);
        }
        let hall = self.hall.as_mut().ok_or(ScriptFault::NoHall)?;
        hall.obey(command)
    }

    // Writes the answer to the line of this number.
    fn print(
        &self,
        out: &mut String,
        number: usize,
        answer: Result<Reply, ScriptFault>,
    ) -> Result<(), AllocError>
        ensures { OnOk result (Appends (Printed self.now.hall number answer) (string_bytes out.old) (string_bytes out.new)) }
    {
        match answer {
            Ok(Reply::Done) => writeln!(out, "ok"),
            Ok(Reply::Moved(count)) => writeln!(out, "moved {count}"),
            Ok(Reply::Counts(tally)) => writeln!(out, "{tally}"),
            Ok(Reply::Boards) => match &self.hall {
                Some(hall) => hall.show(out),
                None => Ok(()),
            },
            Err(fault) => {
                let (refusal, byte) = (u32::from(fault), fault.byte());
                writeln!(out, "no {refusal} {number} {byte}")
            }
        }
    }

    // Answers the line of this number.
    fn answer(&mut self, out: &mut String, number: usize, line: &[u8]) -> Result<(), AllocError>
        ensures { OnOk result (Appends (Answered number line.now self.old.hall self.new.hall) (string_bytes out.old) (string_bytes out.new)) }
    {
        let reply = self.reply(line);
        self.print(out, number, reply)
    }
}

// Answers the lines of a script that is not too long.
fn answers(heap: Global, script: &[u8]) -> Result<String, AllocError>
    requires { length script.now ≤ 65536 }
    ensures { IfOk result (λ s. Answering script.now (string_bytes s)) }
{
    let mut out = String::new(heap);
    let mut session = Session { hall: None };
    for (index, line) in Lines::of(script).enumerate() {
        session.answer(&mut out, index + 1, line)?;
    }
    Ok(out)
}

// The transcript of a script: no other text is one. The one error is want of memory.
pub fn transcript(heap: Global, script: &[u8]) -> Result<String, AllocError>
    ensures says { IfOk result (λ s. Transcript script.now (string_bytes s)) }
    ensures only { IfOk result (λ s. (t : List ℕ) → Transcript script.now t → t ≡ string_bytes s) }
{
    // This refusal is no `ScriptFault`: it comes before any line is read, so it has no line and no byte.
    if script.len() > LONGEST {
        return String::from_str(heap, "no 35 0 0\n");
    }
    answers(heap, script)
}
