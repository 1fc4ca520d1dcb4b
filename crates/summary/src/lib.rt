//! What each place got of a recording that is played into a cell, and what the cell's turns add up to.
#![tactic(auto)]

mod counting;
mod got;
mod printing;
mod sums;
#[cfg(test)]
mod tests;
mod turns;

pub use got::Got;
pub use printing::print;
pub use sums::Sums;
pub use turns::Turns;
