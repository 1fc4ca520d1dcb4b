// The base unit's cell for C: plain numbers, byte slices, and a cell in the caller's memory.
#![tactic(auto)]

mod answers;
mod calls;
mod feed;
mod memory;
mod outs;
mod questions;

pub use calls::{
    dalgweniz_arrive, dalgweniz_close, dalgweniz_make, dalgweniz_open, dalgweniz_report,
    dalgweniz_turn,
};
pub use feed::dalgweniz_feed;
pub use memory::CellMemory;
pub use outs::{Fed, FrameOut, StandingOut, TurnOut};
pub use questions::{
    dalgweniz_booked, dalgweniz_count, dalgweniz_frame, dalgweniz_keep, dalgweniz_mark,
    dalgweniz_session, dalgweniz_size, dalgweniz_turns,
};
