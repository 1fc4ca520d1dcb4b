// Departures: an active session that has no frame and does not lead departs, and what it was owed
// goes to those that stay.
ghost use Rattle.std.specs.Prelude.{◌≡◌, ◌≤◌, Some};
ghost use Rattle.chooser.specs.Offers.{lag_bound};
ghost use Rattle.tariff.specs.Tariff.{link};
ghost use Rattle.model.specs.Departures.{departing, gone, departed, departures};
ghost use Rattle.model.specs.Session.{above_zero};
ghost use Rattle.model.specs.Table.{at, change, first, booked_total, total_owed};
ghost use Rattle.table.specs.Places.{table_of};

use super::share::Sharing;
use chooser::{PLACES, Place};
use session::Row;
use table::{active_rates, first_to_depart};

/// The rows of all places in the midst of a turn: no more is booked than the link has, nor owed
/// than a lag may be, so that a lag can go whole to one session.
#[derive(Clone, Copy, Debug)]
pub struct Midway {
    /// By place, from 0 on.
    pub rows: [Row; PLACES],
    ghost rates: { booked_total (table_of rows) ≤ link },
    ghost lags: { total_owed (table_of rows) ≤ lag_bound },
}

impl Midway {
    /// The rows when all have departed.
    pub fn departed(self) -> [Row; PLACES]
        ensures { table_of result ≡ departures (table_of self.rows) }
    {
        let mut rows = self.rows;
        depart(&mut rows);
        rows
    }
}

// Each departure leaves one active session less. It may end the lead of another, which departs too
// if it has no frame.
#[tactic(auto, using(crate::proofs::Releases::onward))]
fn depart(rows: &mut [Row; PLACES])
    requires rates { booked_total (table_of rows.old) ≤ link }
    requires lags { total_owed (table_of rows.old) ≤ lag_bound }
    ensures { table_of rows.new ≡ departures (table_of rows.old) }
{
    if let Some(place) = first_to_depart(rows) {
        release(rows, place);
        depart(rows);
    }
}

// One departure. What the session was owed is shared, unless it is nothing or nobody is left.
#[tactic(auto, using(crate::proofs::Releases::owed_gone, crate::proofs::Releases::departed_is))]
fn release(rows: &mut [Row; PLACES], place: Place)
    requires departs { first departing (table_of rows.old) ≡ Some place.number }
    requires rates { booked_total (table_of rows.old) ≤ link }
    requires lags { total_owed (table_of rows.old) ≤ lag_bound }
    ensures { table_of rows.new ≡ departed (table_of rows.old) (Some place.number) }
{
    let lag = end(rows, place);
    let rates = active_rates(rows);
    if lag > 0 && rates > 0 {
        Sharing { lag, rates }.over(rows);
    }
}

// Ends a session's activity, and answers what it was still owed.
fn end(rows: &mut [Row; PLACES], place: Place) -> u64
    ensures lag { result ≡ above_zero (at (table_of rows.old) place.number).lag }
    ensures after { table_of rows.new ≡ change (table_of rows.old) place.number gone }
{
    rows[place.index()].depart()
}
