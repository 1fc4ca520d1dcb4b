// The line of each record. Two functions, so that nobody can pair no event with an accepted turn.
ghost use Rattle.std.specs.Prelude.{◌≡◌, ◌<◌, IfOk};
ghost use Rattle.record.specs.Layout.{contents};
ghost use Rattle.record.specs.Lines.{fault_text, line_text, lining};
ghost use Rattle.record.specs.Writing.{after as buffer_after};

use crate::event::Event;
use crate::layout::LINE;
use crate::text::LineText;
use answer::{Answer, Refusal};

/// The line of an event, by the number of its record, and of what the cell answered, into the front of a buffer; answers the
/// line's length in bytes. Refuses a buffer of under 64 bytes (`BufferTooShort`), and then writes nothing.
pub fn line(
    number: u64,
    event: Event,
    res: Result<Answer, Refusal>,
    out: &mut [u8],
) -> Result<usize, Refusal>
    ensures answer { result ≡ lining (line_text number (contents event.entry) res) out.old }
    ensures after { out.new ≡ buffer_after result (line_text number (contents event.entry) res) out.old }
    ensures short { IfOk result (λ n. n < LINE) }
{
    LineText::of_event(number, event, res).store(out)
}

/// The same of a record in which no event was read.
pub fn fault_line(number: u64, why: Refusal, out: &mut [u8]) -> Result<usize, Refusal>
    ensures answer { result ≡ lining (fault_text number why) out.old }
    ensures after { out.new ≡ buffer_after result (fault_text number why) out.old }
    ensures short { IfOk result (λ n. n < LINE) }
{
    LineText::of_fault(number, why).store(out)
}
