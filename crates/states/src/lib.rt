//! A whole cell in text: all that its questions tell, one line for the cell and one for each place.
#![tactic(auto)]

mod figures;
mod place;
mod state;

pub use figures::Figures;
pub use state::print;
