// Reading records.
ghost use Rattle.std.specs.Prelude.{◌≡◌, ◌≤◌, false, length};
ghost use Rattle.std.specs.Range.{range_inclusive_end, range_inclusive_exhausted, range_inclusive_start};
ghost use Rattle.record.specs.Reading.{fault as the_fault, event_as, first_outside, first_unprintable, parsed, reading, reading_as};
ghost use Rattle.record.specs.Laws.{WritesBack};

use crate::event::Event;
use crate::layout::{NOTE, RECORD};
use crate::letter::Letter;
use answer::{Fault, Layer, Refusal};
use std::ops::RangeInclusive;

pub(crate) fn fault(refusal: Refusal, record: u64, byte: usize) -> Fault
    ensures { result ≡ the_fault refusal «record» byte }
{
    Fault {
        refusal,
        layer: Layer::Record,
        record,
        byte,
    }
}

// The first byte outside a range, where the first of them is numbered `base`.
fn first_outside(bytes: &[u8], base: usize, range: RangeInclusive<u8>) -> Option<usize>
    requires fits { (base ≤ NOTE) × (length bytes.now ≤ RECORD) }
    requires whole { range_inclusive_exhausted range ≡ false }
    ensures { result ≡ first_outside (range_inclusive_start range) (range_inclusive_end range) base bytes.now }
{
    bytes
        .iter()
        .position(|b| !range.contains(b))
        .map(|i| base + i)
}

pub(crate) fn first_unprintable(note: &[u8]) -> Option<usize>
    requires { length note.now ≤ RECORD }
    ensures { result ≡ first_unprintable note.now }
{
    first_outside(note, NOTE, b' '..=b'~')
}

// One record.
fn parse<'a>(bytes: &'a [u8; RECORD], number: u64) -> Result<Event<'a>, Fault>
    ensures { event_as result ≡ parsed number bytes.now }
{
    let [letter, place, l0, l1, v0, v1, v2, v3, note @ ..] = &bytes[..] else {
        unreachable()
    };
    let letter = Letter::try_from(char::from(*letter)).map_err(|why| fault(why, number, 0))?;
    let unused = letter.unused();
    let from = unused.start;
    if let Some(byte) = first_outside(&bytes[unused], from, 0..=0) {
        return Err(fault(Refusal::UnusedByteNotZero, number, byte));
    }
    if let Some(byte) = first_unprintable(note) {
        return Err(fault(Refusal::NoteNotPrintable, number, byte));
    }
    let length = u16::from_le_bytes([*l0, *l1]);
    let value = u32::from_le_bytes([*v0, *v1, *v2, *v3]);
    Ok(Event::of(letter, *place, length, value, note))
}

/// The next record of an input, by its number in the recording, with what follows it; none where the input has ended.
/// The fault of a record that cannot be read names that number and a byte.
pub fn read<'a>(input: &'a [u8], number: u64) -> Result<Option<(Event<'a>, &'a [u8])>, Fault>
    ensures answer { reading_as result ≡ reading number input.now }
    ensures writes_back { WritesBack input.now (reading_as result) }
{
    if input.is_empty() {
        return Ok(None);
    }
    let Some((bytes, rest)) = input.split_first_chunk() else {
        return Err(fault(Refusal::TruncatedRecord, number, input.len()));
    };
    let event = parse(bytes, number)?;
    Ok(Some((event, rest)))
}
