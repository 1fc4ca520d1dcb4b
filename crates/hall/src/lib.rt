//! A recording played into a cell of any keep and chooser, and told as lines, in words, with states, or summed up.
#![tactic(auto)]

mod ending;
mod ends;
mod hall;
mod lines;
mod playing;
mod telling;
mod words;

pub use ends::End;
pub use hall::Hall;
pub use playing::play;
pub use telling::{Style, Telling};
