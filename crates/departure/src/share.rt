// A lag shared by rates, so that no byte is lost: places in a row have together the floor of their
// part.
ghost use Rattle.std.specs.Prelude.{◌≡◌, ◌+◌, ◌-◌, ◌<◌, ◌≤◌};
ghost use Rattle.chooser.specs.Offers.{lag_bound};
ghost use Rattle.tariff.specs.Tariff.{link};

use chooser::PLACES;
use session::Row;

// A lag, and what the rates add up to by which it is shared.
#[derive(Clone, Copy, PartialEq, Eq, Debug)]
pub(crate) struct Sharing {
    pub(crate) lag: u64,
    pub(crate) rates: u64,
    ghost some: { 0 < rates },
    ghost few: { rates ≤ link },
    ghost lags: { lag ≤ lag_bound },
}

impl Sharing {
    ghost use Rattle.model.specs.Departures.{active_rate, part as part_of, share as shared};
    ghost use Rattle.model.specs.Session.{above_zero};
    ghost use Rattle.model.specs.Table.{total, total_owed};
    ghost use Rattle.model.specs.Turn.{owed};
    ghost use Rattle.session.specs.Seen.{seen};
    ghost use Rattle.table.specs.Places.{table_of};

    // Shares the lag over the active sessions.
    pub(crate) fn over(self, rows: &mut [Row; PLACES])
        requires rates { self.rates ≡ total active_rate (table_of rows.old) }
        requires lags { total_owed (table_of rows.old) + self.lag ≤ lag_bound }
        ensures { table_of rows.new ≡ shared self.lag self.rates 0 (table_of rows.old) }
    {
        let mut upto = 0;
        for row in rows {
            upto = self.give(row, upto);
        }
    }

    // Gives a session its share, the rates of the places before it adding up to `before`, and
    // answers what they add up to with it.
    fn give(self, row: &mut Row, before: u64) -> u64
        requires room { before + active_rate (seen row.old) ≤ self.rates }
        requires lags { above_zero (seen row.old).lag + self.lag ≤ lag_bound }
        ensures upto { result ≡ before + active_rate (seen row.old) }
        ensures after { let more =
            part_of self.lag self.rates result - part_of self.lag self.rates before
            in seen row.new ≡ owed more (seen row.old) }
    {
        let upto = before + row.active_rate();
        let more = self.between(before, upto);
        row.lag += more as i64;
        upto
    }

    // What is left for the places between two sums of rates.
    fn between(self, before: u64, upto: u64) -> u64
        requires order { before ≤ upto }
        requires room { upto ≤ self.rates }
        ensures is { result ≡
            part_of self.lag self.rates upto - part_of self.lag self.rates before }
        ensures most { result ≤ self.lag }
    {
        self.part(upto) - self.part(before)
    }

    // What those places have together whose rates add up to `upto`.
    fn part(self, upto: u64) -> u64
        requires { upto ≤ self.rates }
        ensures is { result ≡ part_of self.lag self.rates upto }
        ensures most { result ≤ self.lag }
    {
        self.lag * upto / self.rates
    }
}
