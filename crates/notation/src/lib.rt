//! The text of an event, a line: in words, as a recording is listed, and in a short form.
#![tactic(auto)]

mod calls;
mod front;
mod misread;
mod note;
mod noted;
mod printer;
mod reader;

pub use misread::Misread;
pub use noted::NotedCall;
pub use printer::print;
pub use reader::read;
