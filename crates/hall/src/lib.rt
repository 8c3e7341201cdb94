// A hall of boards: its cables, records and tallies, and the calls that change or question them.
#![tactic(auto)]

mod cabling;
mod changes;
mod fault;
mod plans;
mod questions;
mod settle;
mod tables;
mod text;
mod turns;
mod view;

pub use fault::Fault;
pub use questions::Look;
pub use tables::{Hall, Tally};
