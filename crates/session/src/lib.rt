// Answers a script: each line is read as a command, a hall obeys it, and the answers are written as a transcript.
#![tactic(auto)]

mod fault;
mod halls;
mod obey;
mod session;
mod text;

pub use fault::ScriptFault;
pub use session::{LONGEST, transcript};
