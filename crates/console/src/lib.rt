//! A cell at the prompt: calls and questions as lines of text, and what is answered to each.
#![tactic(auto)]

mod command;
mod counted;
mod lines;
mod reply;
mod words;

pub use command::{Command, Unknown, read};
pub use counted::Counted;
pub use lines::{LINES, talk};
pub use reply::{HELP, Reply, answer};
