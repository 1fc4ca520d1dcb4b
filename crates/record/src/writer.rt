// Writing records.
ghost use Rattle.std.specs.Prelude.{◌≡◌};
ghost use Rattle.record.specs.Layout.{contents};
ghost use Rattle.record.specs.Writing.{writing, written};
ghost use Rattle.record.specs.Laws.{ReadsBack};

use crate::event::Event;
use crate::layout::{NOTE, NOTE_LENGTH, RECORD};
use crate::reader::{fault, first_unprintable};
use answer::{Fault, Refusal};

/// Writes the record of an event into the front of a buffer. Refuses a note that is not eight printable bytes
/// (`NoteNotPrintable`), and then a buffer of under sixteen bytes (`BufferTooShort`).
pub fn write(event: &Event, out: &mut [u8]) -> Result<(), Fault>
    ensures answer { result ≡ writing (contents event.now) out.old }
    ensures after { out.new ≡ written (contents event.now) out.old }
    ensures reads_back { ReadsBack event.now out.old out.new result }
{
    let note = event.note();
    if note.len() != NOTE_LENGTH || first_unprintable(note).is_some() {
        return Err(fault(Refusal::NoteNotPrintable, 0, NOTE));
    }
    if out.len() < RECORD {
        return Err(fault(Refusal::BufferTooShort, 0, 0));
    }
    let (place, length, value) = event.numbers();
    let [l0, l1] = length.to_le_bytes();
    let [v0, v1, v2, v3] = value.to_le_bytes();
    out[0..NOTE].copy_from_slice(&[u8::from(event.letter()), place, l0, l1, v0, v1, v2, v3]);
    out[NOTE..RECORD].copy_from_slice(note);
    Ok(())
}
