// Listing a recording.
ghost use Rattle.std.specs.Prelude.{◌≡◌, IfOk, IfSome, OnOk};
ghost use Rattle.std.specs.Io.KnownBytes.{Appends};
ghost use Rattle.record.specs.Layout.{contents};
ghost use Rattle.recording.specs.Recordings.{recording};
ghost use Rattle.reclist.specs.Ends.{EndOf};
ghost use Rattle.reclist.specs.Listing.{event_line, event_lines, fault_line, listing, number_words, total_line};
ghost use Rattle.reclist.specs.Tallies.{empty, tallied};

use crate::end::End;
use crate::form::Form;
use crate::tally::Tally;
use crate::words::Stopped;
use answer::Fault;
use notation::print;
use record::Event;
use recording::{BYTES, RECORDS, Records};
use std::alloc::Global;
use std::io;
use std::io::{BufReader, BufWriter, Read, Write};

fn list_number<W: Write>(out: &mut W, form: Form, number: u64) -> io::Result<()>
    ensures { OnOk result (Appends (W.contents out.old) (W.contents out.new) (number_words form number)) }
{
    match form {
        Form::Numbered => write!(out, "{number}: "),
        Form::Plain => Ok(()),
    }
}

// The line of an event, by the number of its record.
fn list_event<W: Write>(out: &mut W, form: Form, number: u64, event: Event) -> io::Result<()>
    ensures { OnOk result (Appends (W.contents out.old) (W.contents out.new)
        (event_line form number (contents event.entry))) }
{
    list_number(out, form, number)?;
    print(out, event)?;
    writeln!(out)
}

fn list_fault<W: Write>(out: &mut W, form: Form, fault: Fault) -> io::Result<()>
    ensures { OnOk result (Appends (W.contents out.old) (W.contents out.new) (fault_line form fault)) }
{
    match form {
        Form::Numbered => writeln!(out, "{}", Stopped(fault)),
        Form::Plain => Ok(()),
    }
}

fn list_total<W: Write>(out: &mut W, form: Form, tally: &Tally) -> io::Result<()>
    ensures { OnOk result (Appends (W.contents out.old) (W.contents out.new) (total_line form tally.now)) }
{
    match form {
        Form::Numbered => writeln!(out, "{tally}"),
        Form::Plain => Ok(()),
    }
}

// Lists the records up to the end, a fault or the limit, and counts them.
fn list_events<R: Read + Drop, W: Write>(
    reader: R,
    out: &mut W,
    form: Form,
) -> io::Result<(Tally, Option<Fault>)>
    ensures lines { OnOk result (IfSome (R.remaining reader) (λ bytes. let all = recording RECORDS 1 bytes in
        Appends (W.contents out.old) (W.contents out.new) (event_lines form 1 all.events all.fault))) }
    ensures tally { IfOk result (λ listed. IfSome (R.remaining reader) (λ bytes.
        listed.0 ≡ tallied empty (recording RECORDS 1 bytes).events)) }
    ensures fault { IfOk result (λ listed. IfSome (R.remaining reader) (λ bytes.
        listed.1 ≡ (recording RECORDS 1 bytes).fault)) }
{
    let mut tally = Tally::new();
    for record in Records::new(reader) {
        let record = record?;
        match record.event() {
            Ok(event) => {
                list_event(out, form, record.number, event)?;
                tally.count(event);
            }
            Err(fault) => {
                list_fault(out, form, fault)?;
                return Ok((tally, Some(fault)));
            }
        }
    }
    Ok((tally, None))
}

// Lists the records, and what they add up to; answers how they ended.
fn list<R: Read + Drop, W: Write>(reader: R, out: &mut W, form: Form) -> io::Result<End>
    ensures printed { OnOk result (IfSome (R.remaining reader) (λ bytes.
        Appends (W.contents out.old) (W.contents out.new) (listing form (recording RECORDS 1 bytes)))) }
    ensures end { IfOk result (λ end. IfSome (R.remaining reader) (λ bytes.
        EndOf (recording RECORDS 1 bytes) end)) }
{
    let (tally, fault) = list_events(reader, out, form)?;
    list_total(out, form, &tally)?;
    let listed = tally.records();
    Ok(End { listed, fault })
}

// Lists the records of an input, and gives the output back with all of it written out, and how they
// ended.
pub(crate) fn list_all<R: Read + Drop, W: Write + Drop>(
    alloc: Global,
    input: R,
    out: W,
    form: Form,
) -> io::Result<(W, End)>
    ensures printed { IfOk result (λ listed. IfSome (R.remaining input) (λ bytes.
        Appends (W.contents out) (W.contents listed.0) (listing form (recording RECORDS 1 bytes)))) }
    ensures end { IfOk result (λ listed. IfSome (R.remaining input) (λ bytes.
        EndOf (recording RECORDS 1 bytes) listed.1)) }
{
    let reader = BufReader::new(alloc, input.take(BYTES))?;
    let mut writer = BufWriter::new(alloc, out)?;
    let end = list(reader, &mut writer, form)?;
    writer.flush()?;
    let (out, _) = writer.into_parts();
    Ok((out, end))
}
