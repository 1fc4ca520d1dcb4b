// A recording played into a cell, from the bytes of an input to the lines of an output.
#![tactic(auto)]

mod buffered;
mod records;
mod tell;
mod whole;

pub use buffered::play_out;
pub use records::play_records;
pub use whole::{play, play_new};
