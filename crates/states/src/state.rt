// The text of a whole cell.
ghost use Rattle.std.specs.Prelude.{OnOk};
ghost use Rattle.std.specs.Io.KnownBytes.{Appends};
ghost use Rattle.cell.specs.View.{view};
ghost use Rattle.model.specs.Table.{booked_total};
ghost use Rattle.states.specs.Texts.{booked_text, mark_text, places_text, state_text};

use crate::figures::Figures;
use crate::place::print_place;
use cell::Cell;
use std::io;
use std::io::Write;

fn print_mark<W: Write>(out: &mut W, after: u64, mark: u64) -> io::Result<()>
    ensures { OnOk result (Appends (W.contents out.old) (W.contents out.new) (mark_text after mark)) }
{
    write!(out, "state after {after} mark {mark}")
}

fn print_booked<C, W: Write>(out: &mut W, cell: &Cell<C>) -> io::Result<()>
    ensures { OnOk result (Appends (W.contents out.old) (W.contents out.new)
        (booked_text (booked_total (view cell.now).table) (view cell.now).turns (view cell.now).keep)) }
{
    let (booked, turns, keep) = (cell.booked(), cell.turns(), cell.keep());
    writeln!(out, " booked {booked} turns {turns} keep {keep}")
}

fn print_places<C: Figures, W: Write>(out: &mut W, cell: &Cell<C>) -> io::Result<()>
    ensures { OnOk result (Appends (W.contents out.old) (W.contents out.new) (places_text C.figure (view cell.now) 64)) }
{
    for place in 0..64 {
        print_place(out, cell, place)?;
    }
    Ok(())
}

/// Prints all that can be asked of a cell after so many records: a line for the cell, and one for each place, ascending,
/// that is open or has a count.
pub fn print<C: Figures, W: Write>(out: &mut W, cell: &Cell<C>, after: u64) -> io::Result<()>
    ensures { OnOk result (Appends (W.contents out.old) (W.contents out.new) (state_text C.figure (view cell.now) after)) }
{
    print_mark(out, after, cell.mark())?;
    print_booked(out, cell)?;
    print_places(out, cell)
}
