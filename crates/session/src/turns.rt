// What a turn reads off one place and takes from it.
ghost use Rattle.std.specs.Prelude.{◌≡◌, ◌^◌, ◌<◌};
ghost use Rattle.model.specs.Departures.{departing, gone, active_rate};
ghost use Rattle.model.specs.Session.{above_zero};
ghost use Rattle.model.specs.Turn.{first_frame, popped};
ghost use Rattle.session.specs.Seen.{seen};

use super::row::Row;
use queue::Frame;

impl Row {
    /// Takes its first frame; a queue without one gives a frame of no bytes.
    pub fn pop(&mut self) -> Frame
        ensures frame { result ≡ first_frame (seen self.old).queue }
        ensures after { seen self.new ≡ popped (seen self.old) }
    {
        self.queue.pop().unwrap_or_default()
    }

    /// Whether it departs: it is active, but has no frame and does not lead.
    pub fn departs(&self) -> bool
        ensures { result ≡ departing (seen self.now) }
    {
        self.active && !self.waits() && !self.leads()
    }

    /// The rate by which it shares what another was owed: its own while it is active, and 0 while
    /// it is not.
    pub fn active_rate(&self) -> u64
        ensures is { result ≡ active_rate (seen self.now) }
        ensures most { result < 2 ^ 32 }
    {
        if self.active { u64::from(self.rate) } else { 0 }
    }

    /// Ends its activity, and gives the bytes that it was still owed.
    pub fn depart(&mut self) -> u64
        ensures owed { result ≡ above_zero (seen self.old).lag }
        ensures after { seen self.new ≡ gone (seen self.old) }
    {
        let owed = self.lag.max(0) as u64;
        self.active = false;
        self.lag = 0;
        owed
    }
}
