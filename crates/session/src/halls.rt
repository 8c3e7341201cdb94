ghost use Rattle.std.specs.Prelude.{string_bytes, OnOk};
ghost use Rattle.session.specs.Halls.{MakesAny, ObeysAny, ShownAny};
ghost use Rattle.session.specs.Texts.{Appends};

use crate::fault::ScriptFault;
use crate::obey::{Reply, obey};
use crate::text::show;
use commands::{Command, Kind};
use hall::{Fault, Hall};
use lengths::{Grade, Metres};
use std::alloc::AllocError;

// A hall, by its kind of length. The kinds are two, so each call is a match: a `dyn` hall would be made here and handed out,
// which the gate refuses.
#[derive(Drop)]
pub enum AnyHall {
    Metres(Hall<Metres>),
    Grade(Hall<Grade>),
}

impl AnyHall {
    // A hall of this kind, without cables.
    pub(crate) fn new(boards: u32, kind: Kind) -> Result<AnyHall, Fault>
        ensures { MakesAny kind boards result }
    {
        match kind {
            Kind::Metres => Hall::new(boards).map(AnyHall::Metres),
            Kind::Grade => Hall::new(boards).map(AnyHall::Grade),
        }
    }

    // A hall of whichever kind obeys a command.
    pub(crate) fn obey(&mut self, command: Command) -> Result<Reply, ScriptFault>
        ensures { ObeysAny self.old command result self.new }
    {
        match self {
            AnyHall::Metres(hall) => obey(hall, command),
            AnyHall::Grade(hall) => obey(hall, command),
        }
    }

    // Writes a line for each board of a hall of whichever kind.
    pub(crate) fn show(&self, out: &mut String) -> Result<(), AllocError>
        ensures { OnOk result (Appends (ShownAny self.now) (string_bytes out.old) (string_bytes out.new)) }
    {
        match self {
            AnyHall::Metres(hall) => show(out, hall),
            AnyHall::Grade(hall) => show(out, hall),
        }
    }
}
