// The two lists from which a chooser picks.
ghost use Rattle.std.specs.Prelude.{◌≡◌, ◌<◌, false, not, ◌&&◌, slice_index_or};
ghost use Rattle.std.specs.List.{list_any, zip};
ghost use Rattle.model.specs.Lists.{stands_in, members, stayed};
ghost use Rattle.model.specs.Table.{at};
ghost use Rattle.session.specs.Seen.{seen, stay};
ghost use Rattle.table.specs.Joiners.{any_joins};
ghost use Rattle.table.specs.Places.{table_of};

use chooser::{Entry, ListKind, PLACES};
use session::Row;
use std::array;

/// Who stands in a list, place by place.
// That `i` is below the number of places is the closure's to ask.
#[tactic(auto, using(crate::proofs::Tables::at_table))]
pub fn members(rows: &[Row; PLACES], list: ListKind) -> [bool; PLACES]
    ensures { result ≡ members list (table_of rows.now) }
{
    array::from_fn(
        |i|
            requires { i < PLACES }
            ensures { result ≡ stands_in list (at (table_of rows.entry.now) i) }
        { rows[i].stands_in(list) },
    )
}

/// Whether a place is in a list now that was not, `before` saying who stood in it.
#[tactic(auto, using(crate::proofs::Chains::joins_of))]
pub fn anybody_joined(rows: &[Row; PLACES], list: ListKind, before: &[bool; PLACES]) -> bool
    ensures { result ≡ any_joins list before.now (table_of rows.now) }
{
    any_joiner(rows, list, before)
}

// A function of its own: its clause mirrors the chain, which then needs no proof by hand.
fn any_joiner(rows: &[Row], list: ListKind, before: &[bool]) -> bool
    ensures { result ≡
        list_any (λ place. not place.1 && stands_in list (seen place.0)) (zip rows.now before.now) }
{
    rows.iter()
        .zip(before)
        .any(|(row, stood)| !stood && row.stands_in(list))
}

/// What an offer says of those who stood in a list before and still do; all others are not offered.
#[tactic(auto, using(crate::proofs::Tables::at_table))]
pub fn stayed(rows: &[Row; PLACES], list: ListKind, before: &[bool; PLACES]) -> [Entry; PLACES]
    ensures { result ≡ stayed list before.now (table_of rows.now) }
{
    array::from_fn(
        |place|
            requires { place < PLACES }
            ensures { let stood = slice_index_or before.entry.now place false in
                result ≡ stay list stood (at (table_of rows.entry.now) place) }
        { rows[place].stays(list, before[place]) },
    )
}
