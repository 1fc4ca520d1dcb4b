// The line of what became of a record.
ghost use Rattle.std.specs.Prelude.{◌≡◌, IfOk};
ghost use Rattle.recording.specs.Failures.{Notes, Puts};
ghost use Rattle.player.specs.Steps.{goes_on, line_of};
ghost use Rattle.replay.specs.Playing.{outcome_as};

use answer::Fault;
use record::LineText;
use recording::Noted;
use replay::Played;
use std::io;
use std::io::Write;

// Prints the line of a record, and says whether there may be a next one.
pub(crate) fn tell<W: Write>(
    out: &mut Noted<W>,
    number: u64,
    played: Result<Option<Played>, Fault>,
) -> io::Result<bool>
    ensures line { Puts (W.contents out.old.inner) (W.contents out.new.inner) (line_of number (outcome_as played.entry)) result }
    ensures failure { Notes out.old.failure out.new.failure result }
    ensures goes { IfOk result (λ goes. goes ≡ goes_on (outcome_as played.entry)) }
{
    let (line, goes_on) = match played {
        Ok(None) => return Ok(false),
        Ok(Some(Played { event, result })) => (LineText::of_event(number, event, result), true),
        Err(fault) => (LineText::of_fault(number, fault.refusal), false),
    };
    out.put(line.bytes())?;
    Ok(goes_on)
}
