//! The chooser that picks whom it has served least.
#![tactic(auto)]

mod counts;

pub use counts::LeastServed;
