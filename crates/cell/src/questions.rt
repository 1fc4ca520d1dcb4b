// Questions to a cell. They change nothing.
ghost use Rattle.std.specs.Prelude.{◌≡◌};

use super::rows::Placed;
use super::schedule::Schedule;
use answer::Refusal;
use queue::Frame;
use session::Row;
use std::fmt;
use table::booked_total;

/// How the session of an open place stands.
#[derive(Clone, Copy, PartialEq, Eq, Debug)]
pub struct Standing {
    /// booked, in units of the link's 720,720
    pub rate: u32,
    /// of a byte, in virtual time
    pub price: u32,
    pub virtual_time: u64,
    /// the bytes that it is owed; below 0, what it has had too much
    pub lag: i64,
    /// in quarters of a charge
    pub allowance: i64,
    /// its channel
    pub good: bool,
    /// a frame waits or it leads
    pub active: bool,
    /// how many frames wait
    pub waiting: usize,
}

impl From<&Row> for Standing {
    ghost use Rattle.session.specs.Seen.{seen};
    ghost use Rattle.cell.specs.Asked.{standing};

    ghost from_gives = { λ row s. s ≡ standing (seen row.now) };

    fn from(row: &Row) -> Standing {
        Standing {
            rate: row.rate,
            price: row.price,
            virtual_time: row.virtual_time,
            lag: row.lag,
            allowance: row.allowance,
            good: row.good,
            active: row.active,
            waiting: row.queue.len(),
        }
    }
}

/// Every number, as `rate 240, price 3003, virtual time 0, lag -5, allowance 0, good channel,
/// active, 1 waiting`.
impl fmt::Display for Standing {
    fn fmt<W: fmt::Write>(&self, f: &mut fmt::Formatter<W>) -> fmt::Result {
        let Standing {
            rate,
            price,
            virtual_time,
            lag,
            allowance,
            good,
            active,
            waiting,
        } = *self;
        let channel = if good { "good" } else { "bad" };
        let status = if active { "active" } else { "inactive" };
        write!(
            f,
            "rate {rate}, price {price}, virtual time {virtual_time}, lag {lag}, \
             allowance {allowance}, {channel} channel, {status}, {waiting} waiting"
        )
    }
}

impl Schedule {
    ghost use Rattle.std.specs.Prelude.{◌≤◌};
    ghost use Rattle.model.specs.Calls.{asked};
    ghost use Rattle.model.specs.Table.{booked_total};
    ghost use Rattle.tariff.specs.Tariff.{link};
    ghost use Rattle.cell.specs.Asked.{standings, frames};
    ghost use Rattle.cell.specs.View.{alone};

    /// How the session of an open place stands.
    pub fn session(&self, place: u8) -> Result<Standing, Refusal>
        ensures { result ≡ standings (asked (alone self.now) place) }
    {
        let Placed { held: row, .. } = self.opened(place)?;
        Ok(Standing::from(&row))
    }

    /// The i-th frame, from 0, that waits at an open place.
    pub fn frame(&self, place: u8, i: usize) -> Result<Option<Frame>, Refusal>
        ensures { result ≡ frames (asked (alone self.now) place) i }
    {
        let Placed { held: row, .. } = self.opened(place)?;
        Ok(row.queue.get(i))
    }

    /// The virtual time that the cell has come to.
    pub fn mark(&self) -> u64
        ensures { result ≡ (alone self.now).mark }
    {
        self.mark
    }

    /// The rates of all open places together, in units of the link's 720,720.
    pub fn booked(&self) -> u32
        ensures is { result ≡ booked_total (alone self.now).table }
        ensures most { result ≤ link }
    {
        booked_total(&self.rows) as u32
    }

    /// How many turns the cell has accepted.
    pub fn turns(&self) -> u32
        ensures { result ≡ (alone self.now).turns }
    {
        self.turns
    }

    /// What a leading session earns of each charge, in quarters.
    pub fn keep(&self) -> u8
        ensures { result ≡ (alone self.now).keep }
    {
        self.keep
    }
}
