//! Who departs, and who gets what it was owed.
#![tactic(auto)]

mod midway;
mod share;

pub use midway::Midway;
