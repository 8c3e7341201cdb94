// Kinds of length: what a way through the hall can be measured in.
#![tactic(auto)]

mod grade;
mod length;
mod metres;

pub use grade::Grade;
pub use length::Length;
pub use metres::Metres;
