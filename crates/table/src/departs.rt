// Who departs, and by what rates the others share what it was owed.
ghost use Rattle.std.specs.Prelude.{◌≡◌, ◌<◌, IfSome, length, position};
ghost use Rattle.chooser.specs.Places.{numbers};
ghost use Rattle.model.specs.Departures.{departing, active_rate};
ghost use Rattle.model.specs.Table.{first, total};
ghost use Rattle.session.specs.Seen.{seen};
ghost use Rattle.table.specs.Places.{table_of};

use chooser::{PLACES, Place};
use session::Row;

/// The lowest place that departs; none if nobody does.
#[tactic(auto, using(crate::proofs::Chains::first_of))]
pub fn first_to_depart(rows: &[Row; PLACES]) -> Option<Place>
    ensures { numbers result ≡ first departing (table_of rows.now) }
{
    first_departing(rows).and_then(Place::new)
}

// Its index. As with `any_joiner` of `lists.rt`, the clause mirrors the chain.
fn first_departing(rows: &[Row]) -> Option<usize>
    ensures inside { IfSome result (λ i. i < length rows.now) }
    ensures is { result ≡ position (λ row. departing (seen row)) rows.now }
{
    rows.iter().position(Row::departs)
}

/// The rates of the active sessions together.
#[tactic(auto, using(crate::proofs::Chains::total_of))]
pub fn active_rates(rows: &[Row; PLACES]) -> u64
    ensures { result ≡ total active_rate (table_of rows.now) }
{
    rows.iter().map(Row::active_rate).sum()
}
