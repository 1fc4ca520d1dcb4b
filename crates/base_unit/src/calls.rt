// The calls, as C makes them.
ghost use Rattle.std.specs.Prelude.{◌≡◌};
ghost use Rattle.least_served.specs.Served.{unserved};
ghost use Rattle.model.specs.Calls.{opening, closing, arrival, report, turn as a_turn, new};
ghost use Rattle.served_cell.specs.Promised.{Promised};
ghost use Rattle.base_unit.specs.Made.{made_answer, made_in};
ghost use Rattle.base_unit.specs.Outs.{turn_left};
ghost use Rattle.base_unit.specs.View.{memory_view, answered, number_of_call, cell_left};
ghost use Rattle.base_unit.specs.Zero.{ZeroIsNew};

use super::answers::{give, refusal_number};
use super::memory::CellMemory;
use super::outs::TurnOut;
use answer::Answer;
use record::Call;
use served_cell::new_cell;

/// A new cell, whose leading sessions keep so many quarters of each charge, in place of what was
/// there, for which all zero will do: that is a cell too. Whatever is called on it from here on, it
/// keeps its promises. 0 or 16.
#[unsafe(no_mangle)]
#[tactic(auto, using(crate::proofs::Zeros::zero_is_new))]
pub extern "C" fn dalgweniz_make(memory: &mut CellMemory, keep: u8) -> u8
    ensures answer { result ≡ made_answer keep }
    ensures after { memory_view memory.new ≡ made_in keep (memory_view memory.old) }
    ensures promised { Promised (new keep unserved) }
    ensures zero { ZeroIsNew }
{
    give(new_cell(keep), memory)
}

/// Opens a place at a rate of the tariff, in units of the link's 720,720. 0, 5, 6, 8 or 9.
#[unsafe(no_mangle)]
pub extern "C" fn dalgweniz_open(memory: &mut CellMemory, place: u8, rate: u32) -> u8
    ensures answer { result ≡ number_of_call memory.old (opening place rate) }
    ensures after { memory_view memory.new ≡ cell_left memory.old (opening place rate) }
{
    refusal_number(memory.call(Call::Open { place, rate }))
}

/// Closes a place whose session is not active, once the mark has come up to its virtual time.
/// 0, 5, 7, 10 or 11.
#[unsafe(no_mangle)]
pub extern "C" fn dalgweniz_close(memory: &mut CellMemory, place: u8) -> u8
    ensures answer { result ≡ number_of_call memory.old (closing place) }
    ensures after { memory_view memory.new ≡ cell_left memory.old (closing place) }
{
    refusal_number(memory.call(Call::Close { place }))
}

/// Queues a frame of so many bytes that has come for an open place. 0, 5, 7, 12 or 13.
#[unsafe(no_mangle)]
pub extern "C" fn dalgweniz_arrive(memory: &mut CellMemory, place: u8, tag: u32, bytes: u16) -> u8
    ensures answer { result ≡ number_of_call memory.old (arrival place tag bytes) }
    ensures after { memory_view memory.new ≡ cell_left memory.old (arrival place tag bytes) }
{
    refusal_number(memory.call(Call::Arrive {
        place,
        length: bytes,
        tag,
    }))
}

/// Sets whether the channel of an open place is good. 0, 5 or 7.
#[unsafe(no_mangle)]
pub extern "C" fn dalgweniz_report(memory: &mut CellMemory, place: u8, good: bool) -> u8
    ensures answer { result ≡ number_of_call memory.old (report place good) }
    ensures after { memory_view memory.new ≡ cell_left memory.old (report place good) }
{
    refusal_number(memory.call(if good {
        Call::Good { place }
    } else {
        Call::Bad { place }
    }))
}

/// One turn: the chosen session sends, or hands the turn on, and pays for it. 0, 14 or 15.
#[unsafe(no_mangle)]
pub extern "C" fn dalgweniz_turn(memory: &mut CellMemory, out: &mut TurnOut) -> u8
    ensures answer { result ≡ number_of_call memory.old a_turn }
    ensures after { memory_view memory.new ≡ cell_left memory.old a_turn }
    ensures turn { out.new ≡ turn_left (answered memory.old a_turn) out.old }
{
    let answer = memory.call(Call::Turn);
    if let Ok(Answer::Turn(turn)) = answer {
        *out = TurnOut::from(turn);
    }
    refusal_number(answer)
}
