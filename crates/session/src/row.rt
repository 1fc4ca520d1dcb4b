// A place as it stands in the cell's table.
use answer::Refusal;
use chooser::{Entry, ListKind};
use keys::VirtualTime;
use queue::{Frame, Queue};
use tariff::Rate;

/// What the cell keeps of one place, laid out for C: of zeros alone it is a place that is not open.
#[repr(C)]
#[derive(Clone, Copy, Debug)]
pub struct Row {
    /// The place is open.
    pub booked: bool,
    /// Units of the link that it has booked.
    pub rate: u32,
    /// What a byte costs, in virtual time.
    pub price: u32,
    /// In bytes times price; of the active places the one with the smallest is due.
    pub virtual_time: u64,
    /// The bytes that it is owed; below 0, what it has had too much.
    pub lag: i64,
    /// How much of its turns it may still keep while it leads, in quarters of a charge.
    pub allowance: i64,
    /// Its channel is good.
    pub good: bool,
    /// It takes part in turns.
    pub active: bool,
    /// The frames that wait.
    pub queue: Queue,
}

impl Row {
    ghost use Rattle.std.specs.Prelude.{◌≡◌};
    ghost use Rattle.model.specs.Lists.{stands_in};
    ghost use Rattle.model.specs.Session.{vacant, fresh, waiting, able, lags, leads, with_good};
    ghost use Rattle.queue.specs.Fifo.{push_answer};
    ghost use Rattle.session.specs.Seen.{seen, stay, time_key, start, received};

    /// A place that is not open.
    pub fn vacant() -> Row
        ensures { seen result ≡ vacant }
    {
        Row {
            booked: false,
            rate: 0,
            price: 0,
            virtual_time: 0,
            lag: 0,
            allowance: 0,
            good: false,
            active: false,
            queue: Queue::new(),
        }
    }

    /// A place that has just been opened.
    pub fn fresh(rate: Rate) -> Row
        ensures { seen result ≡ fresh rate.units rate.price }
    {
        Row {
            booked: true,
            rate: rate.units(),
            price: rate.price(),
            good: true,
            ..Row::vacant()
        }
    }

    /// Whether a frame waits.
    pub fn waits(&self) -> bool
        ensures { result ≡ waiting (seen self.now) }
    {
        !self.queue.is_empty()
    }

    /// Whether it could send now.
    pub fn able(&self) -> bool
        ensures { result ≡ able (seen self.now) }
    {
        self.waits() && self.good
    }

    /// Whether it is owed service.
    pub fn lags(&self) -> bool
        ensures { result ≡ lags (seen self.now) }
    {
        self.lag > 0
    }

    /// Whether it has had too much.
    pub fn leads(&self) -> bool
        ensures { result ≡ leads (seen self.now) }
    {
        self.lag < 0
    }

    /// Whether it stands in a list.
    pub fn stands_in(&self, list: ListKind) -> bool
        ensures { result ≡ stands_in list (seen self.now) }
    {
        match list {
            ListKind::Credit => self.able() & self.lags(),
            ListKind::Extra => self.able() & !self.lags(),
        }
    }

    /// What an offer of those who stayed in a list says of it, given whether it stood there before.
    pub fn stays(&self, list: ListKind, before: bool) -> Entry
        ensures { result ≡ stay list before (seen self.now) }
    {
        if before & self.stands_in(list) {
            Entry::from(self)
        } else {
            Entry::unoffered()
        }
    }

    /// The key by which it is due: its virtual time, while it is active.
    pub fn key(&self) -> Option<VirtualTime>
        ensures { result ≡ time_key (seen self.now) }
    {
        self.active.then_some(VirtualTime(self.virtual_time))
    }

    /// Queues a frame, at a mark. A session that was not active becomes so, and does not start
    /// before the mark. Without room the frame is refused, and nothing changes.
    pub fn receive(&mut self, frame: Frame, mark: u64) -> Result<(), Refusal>
        ensures answer { result ≡ push_answer (seen self.old).queue }
        ensures after { seen self.new ≡ received mark frame (seen self.old) }
    {
        self.queue.push(frame)?;
        self.virtual_time = self.start(mark);
        self.active = true;
        Ok(())
    }

    // The virtual time from which a frame that comes now is served.
    fn start(&self, mark: u64) -> u64
        ensures { result ≡ start mark (seen self.now) }
    {
        if self.active {
            self.virtual_time
        } else {
            self.virtual_time.max(mark)
        }
    }

    /// Sets the channel.
    pub fn report(&mut self, good: bool)
        ensures { seen self.new ≡ with_good good (seen self.old) }
    {
        self.good = good;
    }
}

/// What an offer says of a row that is offered.
impl From<&Row> for Entry {
    ghost use Rattle.std.specs.Prelude.{◌≡◌};
    ghost use Rattle.chooser.specs.Offers.{offered};

    ghost from_gives = { λ row entry. entry ≡ offered row.now.lag row.now.rate row.now.price };

    fn from(row: &Row) -> Entry {
        Entry {
            offered: true,
            lag: row.lag,
            rate: row.rate,
            price: row.price,
        }
    }
}
