// Virtual times: who is due, and where the mark is.
ghost use Rattle.std.specs.Prelude.{◌≡◌, ◌<◌, is_none, slice_index_or};
ghost use Rattle.std.specs.List.{list_any};
ghost use Rattle.std.specs.Option.{option_map};
ghost use Rattle.chooser.specs.Places.{numbers};
ghost use Rattle.model.specs.Cell.{mark_from};
ghost use Rattle.model.specs.Table.{at, none_active, chosen, least_time, latest_time};
ghost use Rattle.session.specs.Seen.{time_key};
ghost use Rattle.session.specs.declared.row.Row.{Row};
ghost use Rattle.table.specs.Places.{table_of};

use chooser::{PLACES, Place};
use keys::least;
use session::Row;
use std::array;

/// Whose turn it is: the active place with the smallest virtual time, the lowest on a
/// tie; none if no place is active.
#[tactic(auto, using(crate::proofs::Tables::at_table))]
pub fn due(rows: &[Row; PLACES]) -> Option<Place>
    ensures is { numbers result ≡ chosen (table_of rows.now) }
    ensures idle { is_none (numbers result) ≡ none_active (table_of rows.now) }
    ensures soonest { (d : Row) →
        option_map (λ place. (slice_index_or rows.now place.number d).virtual_time) result ≡
        least_time (table_of rows.now) }
{
    let keys: [_; PLACES] = array::from_fn(
        |i|
            requires { i < PLACES }
            ensures { result ≡ time_key (at (table_of rows.entry.now) i) }
        { rows[i].key() },
    );
    least(&keys).and_then(Place::new)
}

/// Whether no place is active.
#[tactic(auto, using(crate::proofs::Chains::idle_of))]
pub fn nobody_active(rows: &[Row; PLACES]) -> bool
    ensures { result ≡ none_active (table_of rows.now) }
{
    !anybody_active(rows)
}

// As with `any_joiner` of `lists.rt`, the clause mirrors the chain.
fn anybody_active(rows: &[Row]) -> bool
    ensures { result ≡ list_any (λ row. row.active) rows.now }
{
    rows.iter().any(|row| row.active)
}

/// The smallest virtual time of the active places; none if no place is active.
pub fn least_time(rows: &[Row; PLACES]) -> Option<u64>
    ensures { result ≡ least_time (table_of rows.now) }
{
    let place = due(rows)?;
    Some(rows[place.index()].virtual_time)
}

/// The largest virtual time of the open places; 0 if none is open.
#[tactic(auto, using(crate::proofs::Chains::latest_of))]
pub fn latest_time(rows: &[Row; PLACES]) -> u64
    ensures { result ≡ latest_time (table_of rows.now) }
{
    rows.iter().fold(0, |last, row| last.max(row.virtual_time))
}

/// The mark that a call leaves which found the mark at `mark`, and nobody active if `idle`.
pub fn mark_after(rows: &[Row; PLACES], idle: bool, mark: u64) -> u64
    ensures { result ≡
        mark_from (least_time (table_of rows.now)) idle (latest_time (table_of rows.now)) mark }
{
    match least_time(rows) {
        Some(time) => time,
        None if idle => mark,
        None => latest_time(rows),
    }
}
