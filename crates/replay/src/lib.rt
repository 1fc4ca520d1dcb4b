// A recording played into a cell.
#![tactic(auto)]

mod calls;
mod playing;

/// The keep, in quarters, of a cell that programs play a recording into.
pub const KEEP: u8 = 2;

pub use calls::{apply, call, run};
pub use playing::{Played, new_cell, play_record};
