// Printing an event in words.
ghost use Rattle.std.specs.Prelude.{OnOk};
ghost use Rattle.std.specs.Io.KnownBytes.{Appends};
ghost use Rattle.record.specs.Layout.{contents};
ghost use Rattle.notation.specs.Words.{call_words, event_words};

use record::{Call, Event};
use std::io;
use std::io::Write;
use tariff::Rate;

fn print_call<W: Write>(out: &mut W, call: Call) -> io::Result<()>
    ensures { OnOk result (Appends (W.contents out.old) (W.contents out.new) (call_words call)) }
{
    match call {
        Call::Open { place, rate } => match Rate::try_from(rate) {
            Ok(booked) => {
                write!(
                    out,
                    "place {place} opens at rate {rate}, price {}",
                    booked.price()
                )
            }
            Err(_) => write!(
                out,
                "place {place} opens at rate {rate}, which is not in the tariff"
            ),
        },
        Call::Close { place } => write!(out, "place {place} closes"),
        Call::Arrive { place, length, tag } => {
            write!(
                out,
                "place {place} offers a frame of {length} bytes, tag {tag}"
            )
        }
        Call::Good { place } => write!(out, "the channel of place {place} is good"),
        Call::Bad { place } => write!(out, "the channel of place {place} is bad"),
        Call::Turn => write!(out, "a turn"),
    }
}

/// Writes the words of an event, as `place 0 closes [--------]`, with no newline. The note is written
/// as it is: with eight printable bytes, as every event that was read has, it makes a line that `read`
/// reads as that event.
pub fn print<W: Write>(out: &mut W, event: Event) -> io::Result<()>
    ensures { OnOk result (Appends (W.contents out.old) (W.contents out.new)
        (event_words (contents event.entry))) }
{
    print_call(out, Call::from(event))?;
    out.write_all(b" [")?;
    out.write_all(event.note())?;
    out.write_all(b"]")
}
