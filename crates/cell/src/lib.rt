// A radio cell of 64 places under one schedule, over any chooser.
#![tactic(auto)]

mod cell;
mod decide;
mod questions;
mod rows;
mod schedule;
mod send;
mod settle;
mod turn;

pub use cell::{Cell, Unmade};
pub use questions::Standing;
pub use schedule::Schedule;
