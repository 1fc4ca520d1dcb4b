// Events as records of sixteen bytes: reading, writing, and the line that tells of each.
#![tactic(auto)]

mod call;
mod event;
mod layout;
mod letter;
mod lines;
mod reader;
mod text;
mod writer;

pub use call::Call;
pub use event::Event;
pub use layout::{LINE, NOTE_LENGTH, RECORD};
pub use letter::Letter;
pub use lines::{fault_line, line};
pub use reader::read;
pub use text::LineText;
pub use writer::write;
