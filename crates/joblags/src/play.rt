// Playing a recording, with a sheet whenever one is due.
ghost use Rattle.std.specs.Prelude.{◌≡◌, IfOk, IfSome, OnOk, Some};
ghost use Rattle.std.specs.Io.KnownBytes.{Appends};
ghost use Rattle.cell.specs.View.{view};
ghost use Rattle.model.specs.History.{after};
ghost use Rattle.chooser.specs.Meaning.{meant};
ghost use Rattle.recording.specs.Recordings.{recording};
ghost use Rattle.replay.specs.Events.{calls_in};
ghost use Rattle.joblags.specs.Ends.{EndOf};
ghost use Rattle.joblags.specs.Jobs.{due_sheet, due_sheets, job_text, last_sheet, stopped_line, stopped_words};

use crate::due::due;
use crate::end::End;
use crate::sheet::Sheet;
use answer::Fault;
use cell::Cell;
use chooser::Chooser;
use record::Call;
use recording::{BYTES, RECORDS, Records};
use replay::call;
use std::alloc::Global;
use std::io::{BufReader, BufWriter, Read, Write};
use std::num::NonZeroU64;
use std::{fmt, io};

// Why nothing more was played. Crews read other words here than in a listing, which has a `Stopped` of its own.
#[derive(Drop)]
struct Stopped(Fault);

impl fmt::Display for Stopped {
    ghost output = { λ stopped. Some (stopped_words stopped.0) };

    fn fmt<W: fmt::Write>(&self, f: &mut fmt::Formatter<W>) -> fmt::Result {
        let Fault {
            refusal,
            record,
            byte,
            ..
        } = self.0;
        let number = refusal.number();
        write!(f, "stopped at record {record} refusal {number} byte {byte}")
    }
}

// Prints how the cell stands after so many records, if a sheet is due then.
fn print_due<C, W: Write>(
    cell: &Cell<C>,
    every: Option<NonZeroU64>,
    after: u64,
    out: &mut W,
) -> io::Result<()>
    ensures { OnOk result (Appends (W.contents out.old) (W.contents out.new) (due_sheet every after (view cell.now))) }
{
    if !due(every, after) {
        return Ok(());
    }
    write!(out, "{}", Sheet { after, cell })
}

// Prints how it stands at the end, unless that was due anyway.
fn print_last<C, W: Write>(
    cell: &Cell<C>,
    every: Option<NonZeroU64>,
    after: u64,
    out: &mut W,
) -> io::Result<()>
    ensures { OnOk result (Appends (W.contents out.old) (W.contents out.new) (last_sheet every after (view cell.now))) }
{
    if due(every, after) {
        return Ok(());
    }
    write!(out, "{}", Sheet { after, cell })
}

// Prints why nothing more was played, if there is a reason.
fn print_fault<W: Write>(fault: Option<Fault>, out: &mut W) -> io::Result<()>
    ensures { OnOk result (Appends (W.contents out.old) (W.contents out.new) (stopped_line fault)) }
{
    match fault {
        Some(fault) => writeln!(out, "{}", Stopped(fault)),
        None => Ok(()),
    }
}

// Plays the records up to the end, a fault of a record or the limit, with the sheets that are due meanwhile. (A struct of
// cell, `every`, input and output would be made in `main` for one call, and taken apart here.)
fn play_all<C: Chooser, R: Read + Drop, W: Write>(
    cell: &mut Cell<C>,
    every: Option<NonZeroU64>,
    reader: R,
    out: &mut W,
) -> io::Result<End>
    ensures sheets { OnOk result (IfSome (R.remaining reader) (λ bytes.
        Appends (W.contents out.old) (W.contents out.new)
        (due_sheets (meant C.Chooser) every (view cell.old) 0 (recording RECORDS 1 bytes).events))) }
    ensures after { OnOk result (IfSome (R.remaining reader) (λ bytes.
        view cell.new ≡ after (meant C.Chooser) (view cell.old) (calls_in (recording RECORDS 1 bytes).events))) }
    ensures end { IfOk result (λ end. IfSome (R.remaining reader) (λ bytes.
        EndOf (recording RECORDS 1 bytes) end)) }
{
    let mut played = 0;
    for record in Records::new(reader) {
        let record = record?;
        match record.event() {
            Ok(event) => {
                let _ = call(cell, Call::from(event));
                played = record.number;
                print_due(cell, every, played, out)?;
            }
            Err(fault) => {
                let fault = Some(fault);
                return Ok(End { played, fault });
            }
        }
    }
    let fault = None;
    Ok(End { played, fault })
}

// Plays a recording and ends with its last sheet, unless that was due anyway; answers how it ended.
fn play<C: Chooser, R: Read + Drop, W: Write>(
    cell: &mut Cell<C>,
    every: Option<NonZeroU64>,
    reader: R,
    out: &mut W,
) -> io::Result<End>
    ensures text { OnOk result (IfSome (R.remaining reader) (λ bytes.
        Appends (W.contents out.old) (W.contents out.new)
        (job_text (meant C.Chooser) every (view cell.old) (recording RECORDS 1 bytes)))) }
    ensures after { OnOk result (IfSome (R.remaining reader) (λ bytes.
        view cell.new ≡ after (meant C.Chooser) (view cell.old) (calls_in (recording RECORDS 1 bytes).events))) }
    ensures end { IfOk result (λ end. IfSome (R.remaining reader) (λ bytes.
        EndOf (recording RECORDS 1 bytes) end)) }
{
    let end = play_all(cell, every, reader, out)?;
    print_fault(end.fault, out)?;
    print_last(cell, every, end.played, out)?;
    Ok(end)
}

// Plays the records of an input, and gives the output back with all of the sheets written out, and
// how the recording ended.
pub(crate) fn play_through<C: Chooser, R: Read + Drop, W: Write + Drop>(
    alloc: Global,
    cell: &mut Cell<C>,
    every: Option<NonZeroU64>,
    input: R,
    out: W,
) -> io::Result<(W, End)>
    ensures text { IfOk result (λ played. IfSome (R.remaining input) (λ bytes.
        Appends (W.contents out) (W.contents played.0)
        (job_text (meant C.Chooser) every (view cell.old) (recording RECORDS 1 bytes)))) }
    ensures after { OnOk result (IfSome (R.remaining input) (λ bytes.
        view cell.new ≡ after (meant C.Chooser) (view cell.old) (calls_in (recording RECORDS 1 bytes).events))) }
    ensures end { IfOk result (λ played. IfSome (R.remaining input) (λ bytes.
        EndOf (recording RECORDS 1 bytes) played.1)) }
{
    let reader = BufReader::new(alloc, input.take(BYTES))?;
    let mut writer = BufWriter::new(alloc, out)?;
    let end = play(cell, every, reader, &mut writer)?;
    writer.flush()?;
    let (out, _) = writer.into_parts();
    Ok((out, end))
}
