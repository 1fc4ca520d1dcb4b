// What a recording adds up to.
ghost use Rattle.std.specs.Prelude.{◌≡◌, ◌+◌, ◌<◌, Some};
ghost use Rattle.record.specs.Layout.{contents};
ghost use Rattle.reclist.specs.Listing.{radio_words, station_words, total_words};
ghost use Rattle.reclist.specs.Tallies.{Counts, Small, counted, counts, empty, records as all_records};

use record::Event;
use recording::RECORDS;
use std::fmt;
use std::marker::Model;

// Records by letter, and the bytes of the frames that were offered.
#[derive(Drop, Default)]
pub(crate) struct Tally {
    opened: u64,
    closed: u64,
    arrived: u64,
    good: u64,
    bad: u64,
    turns: u64,
    bytes: u64,
}

impl Model for Tally {
    ghost Value = { Counts };

    ghost view = { λ t. counts t.opened t.closed t.arrived t.good t.bad t.turns t.bytes };

    ghost invariant = { λ t. Small (counts t.opened t.closed t.arrived t.good t.bad t.turns t.bytes) };
}

impl Tally {
    pub(crate) fn new() -> Tally
        ensures { result ≡ empty }
    {
        Tally::default()
    }

    // All records that were counted.
    pub(crate) fn records(&self) -> u64
        ensures { result ≡ all_records self.now }
    {
        self.opened + self.closed + self.arrived + self.good + self.bad + self.turns
    }

    // Counts one more event.
    pub(crate) fn count(&mut self, event: Event)
        requires { all_records self.old < RECORDS }
        ensures after { self.new ≡ counted self.old (contents event.entry) }
        ensures one_more { all_records self.new ≡ all_records self.old + 1 }
    {
        match event {
            Event::Open { .. } => self.opened += 1,
            Event::Close { .. } => self.closed += 1,
            Event::Arrive { length, .. } => {
                self.arrived += 1;
                self.bytes += u64::from(length);
            }
            Event::Good { .. } => self.good += 1,
            Event::Bad { .. } => self.bad += 1,
            Event::Turn { .. } => self.turns += 1,
        }
    }
}

// What crews and stations asked for.
#[derive(Drop)]
struct Stations {
    opened: u64,
    closed: u64,
    arrived: u64,
}

impl fmt::Display for Stations {
    ghost output = { λ stations. Some (station_words stations.opened stations.closed stations.arrived) };

    fn fmt<W: fmt::Write>(&self, f: &mut fmt::Formatter<W>) -> fmt::Result {
        let Stations {
            opened,
            closed,
            arrived,
        } = *self;
        write!(f, "{opened} O, {closed} C, {arrived} A")
    }
}

// What the radio reported and asked for.
#[derive(Drop)]
struct Radio {
    good: u64,
    bad: u64,
    turns: u64,
}

impl fmt::Display for Radio {
    ghost output = { λ radio. Some (radio_words radio.good radio.bad radio.turns) };

    fn fmt<W: fmt::Write>(&self, f: &mut fmt::Formatter<W>) -> fmt::Result {
        let Radio { good, bad, turns } = *self;
        write!(f, "{good} G, {bad} B, {turns} T")
    }
}

// The records in all, by letter, and the bytes.
impl fmt::Display for Tally {
    ghost output = { λ tally. Some (total_words tally) };

    fn fmt<W: fmt::Write>(&self, f: &mut fmt::Formatter<W>) -> fmt::Result {
        let records = self.records();
        let stations = Stations {
            opened: self.opened,
            closed: self.closed,
            arrived: self.arrived,
        };
        let radio = Radio {
            good: self.good,
            bad: self.bad,
            turns: self.turns,
        };
        let bytes = self.bytes;
        write!(
            f,
            "{records} records: {stations}, {radio}; {bytes} bytes offered"
        )
    }
}
