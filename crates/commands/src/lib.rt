// Reads a line of a script as a command, or tells why it is none. Nothing is allocated.
#![tactic(auto)]

mod boards;
mod command;
mod fields;
mod misread;
mod names;
mod read;
mod verb;

pub use boards::Boards;
pub use command::{Command, Kind, PickerName};
pub use misread::Misread;
pub use read::read_command;
