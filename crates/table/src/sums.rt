// What all places have together.
ghost use Rattle.std.specs.Prelude.{◌≡◌};
ghost use Rattle.model.specs.Table.{booked_total};
ghost use Rattle.table.specs.Places.{table_of};

use chooser::PLACES;
use session::Row;

/// The rates of all open places together.
// So many rates of 32 bits cannot pass 64 bits.
#[tactic(auto, using(crate::proofs::Chains::total_of))]
pub fn booked_total(rows: &[Row; PLACES]) -> u64
    ensures { result ≡ booked_total (table_of rows.now) }
{
    rows.iter().map(|row| u64::from(row.rate)).sum()
}
