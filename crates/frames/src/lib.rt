// Frames: how a board's record travels over a cable, and how a stream of frames is read again.
#![tactic(auto)]

mod fault;
mod head;
mod item;
mod reader;
mod sent;
mod survey;

pub use fault::FrameFault;
pub use head::{Head, RECORD, read_head};
pub use item::{Framed, Item, first_frame};
pub use reader::{Fault, Reader};
pub use sent::{Sent, read_record, write_frame};
pub use survey::{Survey, survey_stream};
