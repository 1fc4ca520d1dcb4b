// The cell as it lies in C's memory.
ghost use Rattle.std.specs.Prelude.{◌≡◌};
ghost use Rattle.cell.specs.View.{cell_of};
ghost use Rattle.chooser.specs.Meaning.{meant};
ghost use Rattle.model.specs.Calls.{answer_to, cell_after};
ghost use Rattle.replay.specs.Events.{call_as};

use answer::{Answer, Refusal};
use cell::{Cell, Schedule};
use chooser::Chooser;
use least_served::LeastServed;
use queue::Frame;
use record::Call;

/// The two parts of a `Cell<LeastServed>`, in C's layout: C takes no generic struct, nor one that
/// holds one. Calls and questions work on them where they lie.
#[repr(C)]
#[derive(Drop)]
pub struct CellMemory {
    pub(crate) schedule: Schedule,
    pub(crate) chooser: LeastServed,
}

impl From<Cell<LeastServed>> for CellMemory {
    ghost use Rattle.cell.specs.View.{view};
    ghost use Rattle.base_unit.specs.View.{memory_view};

    ghost from_gives = { λ cell memory. memory_view memory ≡ view cell };

    fn from(cell: Cell<LeastServed>) -> CellMemory {
        let (schedule, chooser) = cell.into_parts();
        CellMemory { schedule, chooser }
    }
}

impl CellMemory {
    ghost use Rattle.base_unit.specs.View.{memory_view, answered, cell_left};

    // Makes a call.
    pub(crate) fn call(&mut self, call: Call) -> Result<Answer, Refusal>
        ensures answer { result ≡ answered self.old (call_as call) }
        ensures after { memory_view self.new ≡ cell_left self.old (call_as call) }
    {
        make_call(&mut self.schedule, &mut self.chooser, call)
    }
}

// Makes a call of a cell that is kept in two parts.
fn make_call<C: Chooser>(
    schedule: &mut Schedule,
    chooser: &mut C,
    call: Call,
) -> Result<Answer, Refusal>
    ensures answer { result ≡
        answer_to (meant C.Chooser) (cell_of schedule.old chooser.old) (call_as call) }
    ensures after { cell_of schedule.new chooser.new ≡
        cell_after (meant C.Chooser) (cell_of schedule.old chooser.old) (call_as call) }
{
    match call {
        Call::Open { place, rate } => schedule.open(chooser, place, rate)?,
        Call::Close { place } => schedule.close(chooser, place)?,
        Call::Arrive { place, length, tag } => {
            schedule.arrive(chooser, place, Frame { tag, length })?
        }
        Call::Good { place } => schedule.report(chooser, place, true)?,
        Call::Bad { place } => schedule.report(chooser, place, false)?,
        Call::Turn => return schedule.turn(chooser).map(Answer::Turn),
    }
    Ok(Answer::Done)
}
