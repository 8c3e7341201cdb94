// Pickers: who moves next, of the boards that may.
#![tactic(auto)]

mod all;
mod picker;
mod ring;

pub use all::All;
pub use picker::Picker;
pub use ring::Ring;
