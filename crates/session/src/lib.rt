//! What the cell keeps of one place, and what can be said of one place alone.
#![tactic(auto)]

mod row;
mod turns;

pub use row::Row;
