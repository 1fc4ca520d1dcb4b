// How a record is told.
ghost use Rattle.std.specs.Prelude.{OnOk};
ghost use Rattle.std.specs.Io.KnownBytes.{Appends};
ghost use Rattle.hall.specs.Telling.{fault_line, record_text};
ghost use Rattle.record.specs.Layout.{contents};

use crate::telling::Style;
use crate::words::{print_event, print_fault};
use answer::Fault;
use record::LineText;
use replay::Played;
use std::io;
use std::io::Write;

pub(crate) fn print_record<W: Write>(
    out: &mut W,
    style: Style,
    number: u64,
    played: Played<'_>,
) -> io::Result<()>
    ensures { OnOk result (Appends (W.contents out.old) (W.contents out.new)
        (record_text style number (contents played.entry.event) played.entry.result)) }
{
    match style {
        Style::Lines => {
            let line = LineText::of_event(number, played.event, played.result);
            out.write_all(line.bytes())
        }
        Style::Words => print_event(out, number, played),
        Style::Summary => Ok(()),
    }
}

pub(crate) fn print_no_record<W: Write>(out: &mut W, style: Style, fault: Fault) -> io::Result<()>
    ensures { OnOk result (Appends (W.contents out.old) (W.contents out.new) (fault_line style fault)) }
{
    match style {
        Style::Lines => {
            let line = LineText::of_fault(fault.record, fault.refusal);
            out.write_all(line.bytes())
        }
        Style::Words => print_fault(out, fault),
        Style::Summary => Ok(()),
    }
}
