//! Kinds of keys, what the order of each has to show, and the one search for the least of them.
#![tactic(auto)]

mod count;
mod debt;
mod key;
mod search;
mod time;

pub use count::Count;
pub use debt::Debt;
pub use key::Key;
pub use search::least;
pub use time::VirtualTime;
