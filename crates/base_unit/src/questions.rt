// Questions, as C asks them. They change nothing in the cell.
ghost use Rattle.std.specs.Prelude.{◌≡◌, unwrap_or};
ghost use Rattle.answer.specs.Numbers.{refusal_number};
ghost use Rattle.cell.specs.Asked.{standings, frames};
ghost use Rattle.model.specs.Calls.{asked};
ghost use Rattle.model.specs.Table.{booked_total};
ghost use Rattle.base_unit.specs.Numbers.{counted};
ghost use Rattle.base_unit.specs.Outs.{standing_left, frame_left};
ghost use Rattle.base_unit.specs.View.{memory_view, count_in};

use super::answers::give;
use super::memory::CellMemory;
use super::outs::{FrameOut, StandingOut};
use answer::Refusal;
use chooser::ListKind;
use std::mem::size_of;

/// How the session of an open place stands. 0, 5 or 7.
#[unsafe(no_mangle)]
pub extern "C" fn dalgweniz_session(memory: &CellMemory, place: u8, out: &mut StandingOut) -> u8
    ensures answer { result ≡ refusal_number (asked (memory_view memory.now) place) }
    ensures standing { out.new ≡
        standing_left (standings (asked (memory_view memory.now) place)) out.old }
{
    give(memory.schedule.session(place), out)
}

/// The i-th frame, from 0, that waits at an open place. 0, 5 or 7.
#[unsafe(no_mangle)]
pub extern "C" fn dalgweniz_frame(
    memory: &CellMemory,
    place: u8,
    i: usize,
    out: &mut FrameOut,
) -> u8
    ensures answer { result ≡ refusal_number (asked (memory_view memory.now) place) }
    ensures frame { out.new ≡ frame_left (frames (asked (memory_view memory.now) place) i) out.old }
{
    give(memory.schedule.frame(place, i), out)
}

/// The service that a place has had from the credit list, or from the extra list, which C names by a
/// flag, in bytes times price. 0 or 5: a chooser knows of no place whether it is open, and the count
/// of one that is closed stays until it is opened again.
#[unsafe(no_mangle)]
pub extern "C" fn dalgweniz_count(memory: &CellMemory, extra: bool, place: u8, out: &mut u64) -> u8
    ensures answer { result ≡ refusal_number (counted (count_in memory.now extra place)) }
    ensures count { out.new ≡ unwrap_or (count_in memory.now extra place) out.old }
{
    let list = if extra {
        ListKind::Extra
    } else {
        ListKind::Credit
    };
    let count = memory.chooser.count(list, usize::from(place));
    give(count.ok_or(Refusal::PlaceTooHigh), out)
}

/// The virtual time that the cell has come to.
#[unsafe(no_mangle)]
pub extern "C" fn dalgweniz_mark(memory: &CellMemory) -> u64
    ensures { result ≡ (memory_view memory.now).mark }
{
    memory.schedule.mark()
}

/// The rates of all open places together, in units of the link's 720,720.
#[unsafe(no_mangle)]
pub extern "C" fn dalgweniz_booked(memory: &CellMemory) -> u32
    ensures { result ≡ booked_total (memory_view memory.now).table }
{
    memory.schedule.booked()
}

/// How many turns the cell has accepted.
#[unsafe(no_mangle)]
pub extern "C" fn dalgweniz_turns(memory: &CellMemory) -> u32
    ensures { result ≡ (memory_view memory.now).turns }
{
    memory.schedule.turns()
}

/// What a leading session earns of each charge, in quarters.
#[unsafe(no_mangle)]
pub extern "C" fn dalgweniz_keep(memory: &CellMemory) -> u8
    ensures { result ≡ (memory_view memory.now).keep }
{
    memory.schedule.keep()
}

/// The bytes of a cell in C's memory.
#[unsafe(no_mangle)]
pub extern "C" fn dalgweniz_size() -> usize
    ensures { result ≡ 21520 }
{
    size_of::<CellMemory>()
}
