// What is printed at the end.
ghost use Rattle.std.specs.Prelude.{OnOk};
ghost use Rattle.std.specs.Io.KnownBytes.{Appends};
ghost use Rattle.cell.specs.View.{view};
ghost use Rattle.hall.specs.Telling.{end_text, fault_fact, faults_text, last_text, sums_text};

use crate::ends::End;
use crate::hall::Hall;
use crate::lines::print_no_record;
use crate::telling::{Style, Telling};
use answer::Fault;
use cell::Cell;
use states::Figures;
use std::io;
use std::io::Write;
use summary::Sums;

fn print_fact<W: Write>(out: &mut W, states: Option<u64>, fault: Fault) -> io::Result<()>
    ensures { OnOk result (Appends (W.contents out.old) (W.contents out.new) (fault_fact states fault)) }
{
    if states.is_none() {
        return Ok(());
    }
    let Fault {
        refusal,
        record,
        byte,
        ..
    } = fault;
    let why = refusal.number();
    writeln!(out, "fault {why} layer record number {record} byte {byte}")
}

fn print_faults<W: Write>(out: &mut W, telling: Telling, fault: Option<Fault>) -> io::Result<()>
    ensures { OnOk result (Appends (W.contents out.old) (W.contents out.new) (faults_text telling fault)) }
{
    if let Some(fault) = fault {
        print_no_record(out, telling.style, fault)?;
        print_fact(out, telling.states, fault)?;
    }
    Ok(())
}

fn print_last<C: Figures, W: Write>(
    out: &mut W,
    states: Option<u64>,
    records: u64,
    cell: &Cell<C>,
) -> io::Result<()>
    ensures { OnOk result (Appends (W.contents out.old) (W.contents out.new)
        (last_text C.figure states records (view cell.now))) }
{
    match states {
        Some(_) => states::print(out, cell, records),
        None => Ok(()),
    }
}

fn print_sums<W: Write>(out: &mut W, style: Style, sums: &Sums) -> io::Result<()>
    ensures { OnOk result (Appends (W.contents out.old) (W.contents out.new) (sums_text style sums.now)) }
{
    match style {
        Style::Summary => summary::print(out, sums),
        Style::Lines | Style::Words => Ok(()),
    }
}

// Prints the fault that ended a recording, the last state, and what all adds up to, as far as it is asked for.
pub(crate) fn print_end<C: Figures, W: Write>(
    out: &mut W,
    telling: Telling,
    end: End,
    hall: &Hall<C>,
) -> io::Result<()>
    ensures { OnOk result (Appends (W.contents out.old) (W.contents out.new)
        (end_text C.figure telling end.records end.fault (view hall.now.cell) hall.now.sums)) }
{
    print_faults(out, telling, end.fault)?;
    print_last(out, telling.states, end.records, &hall.cell)?;
    print_sums(out, telling.style, &hall.sums)
}
