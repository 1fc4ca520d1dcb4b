// A recording played into a cell, record by record.
ghost use Rattle.std.specs.Prelude.{◌≡◌};
ghost use Rattle.cell.specs.View.{view};
ghost use Rattle.chooser.specs.Meaning.{meant};
ghost use Rattle.record.specs.Reading.{reading};
ghost use Rattle.replay.specs.Playing.{cell_played, outcome_as, outcome_of};
ghost use Rattle.replay.specs.Promised.{Promised};

use crate::KEEP;
use crate::calls::call;
use answer::{Answer, Fault, Refusal};
use cell::Cell;
use chooser::Chooser;
use record::{Call, Event, read};

/// What became of a record: the event that was read, and what the cell answered to its call.
#[derive(Clone, Copy, PartialEq, Eq, Debug)]
pub struct Played<'a> {
    /// The event.
    pub event: Event<'a>,
    /// The cell's answer.
    pub result: Result<Answer, Refusal>,
}

/// The cell that programs play a recording into. Whatever is called on it, it keeps all that a new cell promises.
pub fn new_cell<C: Chooser>(chooser: C) -> Cell<C>
    ensures { Promised (meant C.Chooser) KEEP chooser (view result) }
{
    Cell::new(KEEP, chooser).unwrap()
}

/// Reads the next record of the input, by its number, and makes its call; none where the input has ended. Where no event
/// can be read, the cell is not asked.
pub fn play_record<'a, C: Chooser>(
    cell: &mut Cell<C>,
    input: &'a [u8],
    number: u64,
) -> Result<Option<Played<'a>>, Fault>
    ensures answer { outcome_as result ≡ outcome_of (meant C.Chooser) (view cell.old) (reading number input.now) }
    ensures after { view cell.new ≡ cell_played (meant C.Chooser) (view cell.old) (reading number input.now) }
{
    let Some((event, _)) = read(input, number)? else {
        return Ok(None);
    };
    let result = call(cell, Call::from(event));
    Ok(Some(Played { event, result }))
}
