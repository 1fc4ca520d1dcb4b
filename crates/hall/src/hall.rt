// A cell, and what its places got.
ghost use Rattle.std.specs.Prelude.{◌≡◌, OnOk, replicate};
ghost use Rattle.std.specs.Io.KnownBytes.{Appends};
ghost use Rattle.cell.specs.View.{view};
ghost use Rattle.hall.specs.Telling.{due_text, event_text};
ghost use Rattle.chooser.specs.declared.TheConstants.{PLACES};
ghost use Rattle.record.specs.Layout.{contents};
ghost use Rattle.summary.specs.Adding.{none};
ghost use Rattle.summary.specs.Getting.{nothing};

use crate::lines::print_record;
use crate::telling::{Style, Telling};
use cell::Cell;
use replay::Played;
use states::Figures;
use std::io;
use std::io::Write;
use summary::Sums;

/// A cell, and what its places got of the events that were played.
#[derive(Drop)]
pub struct Hall<C> {
    /// The cell.
    pub cell: Cell<C>,
    /// What its places got, where that is asked for.
    pub sums: Sums,
}

impl<C: Figures> Hall<C> {
    /// A cell of which nothing was counted.
    pub fn new(cell: Cell<C>) -> Hall<C>
        ensures cell { view result.cell ≡ view cell }
        ensures places { result.sums.places ≡ replicate PLACES nothing }
        ensures turns { result.sums.turns ≡ none }
    {
        Hall {
            cell,
            sums: Sums::new(),
        }
    }

    // Tells what was played, and counts it where it is to be summed up.
    pub(crate) fn tell<W: Write>(
        &mut self,
        telling: Telling,
        out: &mut W,
        number: u64,
        played: Played<'_>,
    ) -> io::Result<()>
        ensures text { OnOk result (Appends (W.contents out.old) (W.contents out.new)
            (event_text C.figure telling number (contents played.entry.event) played.entry.result (view self.old.cell))) }
        ensures cell { view self.new.cell ≡ view self.old.cell }
    {
        print_record(out, telling.style, number, played)?;
        if telling.style == Style::Summary {
            self.sums.count(played, &self.cell);
        }
        print_due(out, telling.is_due(number), &self.cell, number)
    }
}

// Prints the state of a cell, if it is due.
fn print_due<C: Figures, W: Write>(
    out: &mut W,
    due: bool,
    cell: &Cell<C>,
    number: u64,
) -> io::Result<()>
    ensures { OnOk result (Appends (W.contents out.old) (W.contents out.new)
        (due_text C.figure due number (view cell.now))) }
{
    if due {
        states::print(out, cell, number)
    } else {
        Ok(())
    }
}
