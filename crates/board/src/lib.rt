// A board end: the rules in a board that knows its own record, its wired ports and what its neighbours last told it.
#![tactic(auto)]

mod advance;
mod begin;
mod fault;
mod hear;
mod ports;
mod ready;
mod states;
mod station;
mod tell;

pub use fault::EarFault;
pub use states::{Listening, Owing, Ready};
