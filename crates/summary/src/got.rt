// What one place got.
use crate::counting::plus;
use answer::{Answer, Refusal, Turn};
use cell::Standing;
use record::Event;
use replay::Played;

/// What one place got: over all sessions that it had, with the rate of the last.
#[derive(Clone, Copy, PartialEq, Eq, Debug)]
pub struct Got {
    /// of the session that was opened last, in units of the link; 0 where none was
    pub rate: u32,
    /// of that session's bytes
    pub price: u32,
    /// bytes that it sent in its own turns
    pub own: u64,
    /// bytes that it sent in turns of others
    pub borrowed: u64,
    /// its own turns in which a frame waited but its channel was bad
    pub lost: u64,
    /// frames that were refused
    pub refused: u64,
    /// the highest lag that it had after a turn, in bytes; 0 at least
    pub highest: i64,
    /// the lowest; 0 at most
    pub lowest: i64,
}

impl Got {
    ghost use Rattle.std.specs.Prelude.{◌≡◌};
    ghost use Rattle.record.specs.Layout.{contents};
    ghost use Rattle.summary.specs.Getting.{by_turn, got_after, nothing, was_open, with_lag, with_lost, with_rate, with_sent};

    /// Nothing yet, and never open.
    pub fn new() -> Got
        ensures { result ≡ nothing }
    {
        Got {
            rate: 0,
            price: 0,
            own: 0,
            borrowed: 0,
            lost: 0,
            refused: 0,
            highest: 0,
            lowest: 0,
        }
    }

    /// Whether the place has been open.
    pub fn was_open(self) -> bool
        ensures { result ≡ was_open self }
    {
        self.rate != 0
    }

    fn with_rate(self, standing: Standing) -> Got
        ensures { result ≡ with_rate standing self }
    {
        Got {
            rate: standing.rate,
            price: standing.price,
            ..self
        }
    }

    fn with_sent(self, place: u8, turn: Turn) -> Got
        ensures { result ≡ with_sent place turn turn.sent self }
    {
        let bytes = u64::from(turn.length);
        match turn.sent {
            Some(sent) if sent.sender == place && turn.chosen == place => Got {
                own: plus(self.own, bytes),
                ..self
            },
            Some(sent) if sent.sender == place => Got {
                borrowed: plus(self.borrowed, bytes),
                ..self
            },
            _ => self,
        }
    }

    fn with_lost(self, lost: bool) -> Got
        ensures { result ≡ with_lost lost self }
    {
        if lost {
            Got {
                lost: plus(self.lost, 1),
                ..self
            }
        } else {
            self
        }
    }

    fn with_lag(self, standing: Standing) -> Got
        ensures { result ≡ with_lag standing self }
    {
        Got {
            highest: self.highest.max(standing.lag),
            lowest: self.lowest.min(standing.lag),
            ..self
        }
    }

    fn by_turn(self, place: u8, turn: Turn, standing: Standing) -> Got
        ensures { result ≡ by_turn place turn standing self }
    {
        let faded = turn.chosen == place && !standing.good && standing.waiting > 0;
        self.with_sent(place, turn)
            .with_lost(faded)
            .with_lag(standing)
    }

    /// What the place of this number has got after one more event, by what the cell answered and how the place stands now.
    pub fn after(self, place: u8, played: Played<'_>, standing: Result<Standing, Refusal>) -> Got
        ensures { result ≡ got_after place (contents played.entry.event) played.entry.result standing self }
    {
        match (played.event, played.result, standing) {
            (Event::Open { place: opened, .. }, Ok(_), Ok(standing)) if opened == place => {
                self.with_rate(standing)
            }
            (Event::Arrive { place: to, .. }, Err(_), _) if to == place => Got {
                refused: plus(self.refused, 1),
                ..self
            },
            (Event::Turn { .. }, Ok(Answer::Turn(turn)), Ok(standing)) => {
                self.by_turn(place, turn, standing)
            }
            _ => self,
        }
    }
}

impl Default for Got {
    fn default() -> Got {
        Got::new()
    }
}
