//! The places of a cell, read as a whole.
#![tactic(auto)]

mod departs;
mod lists;
mod sums;
mod times;

pub use departs::{active_rates, first_to_depart};
pub use lists::{anybody_joined, members, stayed};
pub use sums::booked_total;
pub use times::{due, latest_time, least_time, mark_after, nobody_active};
