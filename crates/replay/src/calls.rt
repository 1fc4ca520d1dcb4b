// Calls on a cell, as recordings have them.
ghost use Rattle.std.specs.Prelude.{◌≡◌};
ghost use Rattle.cell.specs.View.{view};
ghost use Rattle.model.specs.Calls.{step};
ghost use Rattle.model.specs.History.{after};
ghost use Rattle.chooser.specs.Meaning.{meant};
ghost use Rattle.replay.specs.Events.{at_record, call_as, call_of, calls_as};

use answer::{Answer, Fault, Layer, Refusal};
use cell::Cell;
use chooser::Chooser;
use queue::Frame;
use record::{Call, Event};

/// Makes the call of an event. A refusal becomes the fault of the record with this number.
pub fn apply<C: Chooser>(cell: &mut Cell<C>, event: Event, number: u64) -> Result<Answer, Fault>
    ensures answer { result ≡ at_record number (step (meant C.Chooser) (view cell.old) (call_of event.entry)).answer }
    ensures after { view cell.new ≡ (step (meant C.Chooser) (view cell.old) (call_of event.entry)).cell }
{
    call(cell, Call::from(event)).map_err(|refusal| Fault {
        refusal,
        layer: Layer::Cell,
        record: number,
        byte: 0,
    })
}

/// Makes a call, and answers what the cell answers.
pub fn call<C: Chooser>(cell: &mut Cell<C>, call: Call) -> Result<Answer, Refusal>
    ensures answer { result ≡ (step (meant C.Chooser) (view cell.old) (call_as call)).answer }
    ensures after { view cell.new ≡ (step (meant C.Chooser) (view cell.old) (call_as call)).cell }
{
    match call {
        Call::Open { place, rate } => cell.open(place, rate)?,
        Call::Close { place } => cell.close(place)?,
        Call::Arrive { place, length, tag } => cell.arrive(place, Frame { tag, length })?,
        Call::Good { place } => cell.report(place, true)?,
        Call::Bad { place } => cell.report(place, false)?,
        Call::Turn => return cell.turn().map(Answer::Turn),
    }
    Ok(Answer::Done)
}

/// Makes some calls in their order, whatever the cell answers: a refused one changes nothing.
pub fn run<C: Chooser>(cell: &mut Cell<C>, calls: &[Call])
    ensures { view cell.new ≡ after (meant C.Chooser) (view cell.old) (calls_as calls.now) }
{
    for next in calls {
        let _ = call(cell, *next);
    }
}
