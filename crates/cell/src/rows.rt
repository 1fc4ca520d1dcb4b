// Places, and the rows that stand at them.
ghost use Rattle.std.specs.Prelude.{◌≡◌, slice_set};
ghost use Rattle.model.specs.Table.{at};
ghost use Rattle.session.specs.Seen.{seen};
ghost use Rattle.table.specs.Places.{table_of};

use chooser::{PLACES, Place};
use session::Row;

// What belongs to a place, with the place: a row as it was found there or is to be put there, or
// the account of who has a part in a turn.
#[derive(Clone, Copy)]
pub(crate) struct Placed<T> {
    pub(crate) place: Place,
    pub(crate) held: T,
}

#[tactic(auto, using(table::proofs::Tables::at_table))]
pub(crate) fn row_at(rows: &[Row; PLACES], place: Place) -> &Row
    ensures { seen result.now ≡ at (table_of rows.now) place.number }
{
    &rows[place.index()]
}

#[tactic(auto, using(departure::proofs::Shares::table_set))]
pub(crate) fn set_row(rows: &mut [Row; PLACES], place: Place, row: Row)
    ensures { table_of rows.new ≡ slice_set (table_of rows.old) place.number (seen row) }
{
    rows[place.index()] = row;
}
