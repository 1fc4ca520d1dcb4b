// The line of an event in words.
ghost use Rattle.std.specs.Prelude.{◌≡◌, OnOk};
ghost use Rattle.std.specs.Io.KnownBytes.{Appends};
ghost use Rattle.hall.specs.Words.{arrival_words, call_words, event_words, fault_words, kind_words};
ghost use Rattle.hall.specs.Words.{note_words, opening_words, sent_words, told_words, turn_words};
ghost use Rattle.record.specs.Layout.{contents};

use answer::{Answer, Fault, Kind, Refusal, Sent, Turn};
use record::Event;
use replay::Played;
use std::io;
use std::io::Write;

fn print_opening<W: Write>(out: &mut W, place: u8, rate: u32) -> io::Result<()>
    ensures { OnOk result (Appends (W.contents out.old) (W.contents out.new) (opening_words place rate)) }
{
    write!(out, "place {place}: open at rate {rate}")
}

fn print_arrival<W: Write>(out: &mut W, place: u8, bytes: u16, tag: u32) -> io::Result<()>
    ensures { OnOk result (Appends (W.contents out.old) (W.contents out.new) (arrival_words place bytes tag)) }
{
    write!(out, "place {place}: a frame of {bytes} bytes, tag {tag}")
}

fn print_call<W: Write>(out: &mut W, event: Event) -> io::Result<()>
    ensures { OnOk result (Appends (W.contents out.old) (W.contents out.new)
        (call_words (contents event.entry).letter (contents event.entry))) }
{
    match event {
        Event::Open { place, rate, .. } => print_opening(out, place, rate),
        Event::Close { place, .. } => write!(out, "place {place}: close"),
        Event::Arrive {
            place,
            length,
            tag,
            ..
        } => print_arrival(out, place, length, tag),
        Event::Good { place, .. } => write!(out, "place {place}: its channel is good"),
        Event::Bad { place, .. } => write!(out, "place {place}: its channel is bad"),
        Event::Turn { .. } => write!(out, "a turn"),
    }
}

fn kind_words(kind: Kind) -> &'static str
    ensures { result.now ≡ kind_words kind }
{
    match kind {
        Kind::Normal => " in its own turn (n)",
        Kind::Credit => " in another's turn, paid back (c)",
        Kind::Kept => " in its own turn, which it keeps (k)",
        Kind::Extra => " in another's turn (x)",
        Kind::Idle => " (i)",
    }
}

fn print_sent<W: Write>(out: &mut W, sent: Option<Sent>, bytes: u16) -> io::Result<()>
    ensures { OnOk result (Appends (W.contents out.old) (W.contents out.new) (sent_words sent bytes)) }
{
    match sent {
        Some(Sent { sender, tag }) => {
            write!(out, "place {sender} sent {bytes} bytes of tag {tag}")
        }
        None => write!(out, "nobody sent for {bytes} bytes"),
    }
}

fn print_turn<W: Write>(out: &mut W, turn: Turn) -> io::Result<()>
    ensures { OnOk result (Appends (W.contents out.old) (W.contents out.new) (turn_words turn)) }
{
    write!(out, "place {}: turn: ", turn.chosen)?;
    print_sent(out, turn.sent, turn.length)?;
    write!(out, "{}", kind_words(turn.kind))
}

fn print_told<W: Write>(
    out: &mut W,
    event: Event,
    answer: Result<Answer, Refusal>,
) -> io::Result<()>
    ensures { OnOk result (Appends (W.contents out.old) (W.contents out.new) (told_words (contents event.entry) answer)) }
{
    match answer {
        Ok(Answer::Turn(turn)) => print_turn(out, turn),
        Ok(Answer::Done) => {
            print_call(out, event)?;
            write!(out, ": ok")
        }
        Err(refusal) => {
            print_call(out, event)?;
            write!(out, ": {refusal}")
        }
    }
}

fn print_note<W: Write>(out: &mut W, note: &[u8]) -> io::Result<()>
    ensures { OnOk result (Appends (W.contents out.old) (W.contents out.new) (note_words note.now)) }
{
    out.write_all(b" [")?;
    out.write_all(note)?;
    out.write_all(b"]\n")
}

/// Prints the line of an event in words, by the number of its record and what the cell answered.
pub(crate) fn print_event<W: Write>(out: &mut W, number: u64, played: Played<'_>) -> io::Result<()>
    ensures { OnOk result (Appends (W.contents out.old) (W.contents out.new)
        (event_words number (contents played.entry.event) played.entry.result)) }
{
    write!(out, "{number} ")?;
    print_told(out, played.event, played.result)?;
    print_note(out, played.event.note())
}

/// The same of a record in which no event was read.
pub(crate) fn print_fault<W: Write>(out: &mut W, fault: Fault) -> io::Result<()>
    ensures { OnOk result (Appends (W.contents out.old) (W.contents out.new) (fault_words fault)) }
{
    let Fault {
        refusal,
        record,
        byte,
        ..
    } = fault;
    writeln!(out, "{record} no event: {refusal}, byte {byte}")
}
