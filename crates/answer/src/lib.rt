// What a call answers: an answer or a refusal, and through a record the whole fault.
#![tactic(auto)]

mod fault;
mod refusal;
mod turn;

pub use fault::{Fault, Layer};
pub use refusal::Refusal;
pub use turn::{Answer, Kind, Sent, Turn};
