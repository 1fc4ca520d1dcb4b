// The records of an input, one after the other.
ghost use Rattle.std.specs.Prelude.{◌≡◌, ◌+◌, ◌-◌, ◌⊎◌, ◌<◌, ◌≤◌, [], MatchOption, IfOk, None, OnErr, length, take};
ghost use Rattle.std.specs.Iterator.{at_most};
ghost use Rattle.record.specs.declared.layout.TheConstants.{RECORD};
ghost use Rattle.record.specs.Reading.{event_as, reading, with_rest};
ghost use Rattle.recording.specs.declared.TheConstants.{RECORDS};
ghost use Rattle.recording.specs.Failures.{Notes};
ghost use Rattle.recording.specs.Taking.{Takes, TakesSome};

use crate::{Noted, RECORDS, fill};
use answer::Fault;
use record::{Event, RECORD, read};
use std::io;
use std::io::Read;

/// What was read of a record: its sixteen bytes, or fewer where the input ends in it, but one at least.
#[derive(Drop)]
pub struct Record {
    /// Its number in the recording, counted from 1.
    pub number: u64,
    bytes: [u8; RECORD],
    size: usize,
    ghost inside: { (0 < size) × (size ≤ RECORD) },
    ghost whole: { length bytes ≡ RECORD },
}

impl Record {
    /// Its bytes, 1 to 16.
    pub fn bytes(&self) -> &[u8]
        ensures { result.now ≡ take self.now.size self.now.bytes }
    {
        &self.bytes[..self.size]
    }

    /// The event that it says, or the fault of a record that cannot be read.
    pub fn event(&self) -> Result<Event<'_>, Fault>
        ensures { with_rest [] (event_as result) ≡ reading self.now.number (take self.now.size self.now.bytes) }
    {
        match read(self.bytes(), self.number)? {
            Some((event, _)) => Ok(event),
            None => unreachable!(),
        }
    }
}

/// The records of an input, by their numbers from 1 on. They end where the input ends, and after a million at the latest. Past
/// the end nothing is read any more, and nothing changes.
#[derive(Drop)]
pub struct Records<R> {
    reader: Noted<R>,
    // of the next record; above the limit where there is none any more
    next: u64,
    ghost limit: { (0 < next) × (next ≤ RECORDS + 1) },
}

impl<R> Records<R> {
    /// The records of an input from its first byte on.
    pub fn new(reader: R) -> Records<R>
        ensures reader { result.reader ≡ record { inner = reader; failure = None } }
        ensures first { result.next ≡ 1 }
    {
        Records {
            reader: Noted::new(reader),
            next: 1,
        }
    }
}

impl<R: Read + Drop> Iterator for Records<R> {
    type Item = io::Result<Record>;

    // The numbers go on by one, and a record has the next bytes of the input. A failure is the reader's.
    ghost next_gives = { λ s r t.
        MatchOption r
        (((RECORDS < s.next) × (t ≡ s))
        ⊎ ((s.next ≤ RECORDS) × (t.next ≡ RECORDS + 1) × (t.reader.failure ≡ s.reader.failure)
        × Takes (R.remaining s.reader.inner) (R.remaining t.reader.inner) [] 0))
        (λ read. (s.next ≤ RECORDS) × (t.next ≡ s.next + 1) × Notes s.reader.failure t.reader.failure read
        × IfOk read (λ rec. (rec.number ≡ s.next)
        × Takes (R.remaining s.reader.inner) (R.remaining t.reader.inner) rec.bytes rec.size)
        × OnErr read (TakesSome (R.remaining s.reader.inner) (R.remaining t.reader.inner))) };

    ghost remaining = { λ s. at_most (RECORDS + 1 - s.next) };

    fn next(&mut self) -> Option<io::Result<Record>> {
        let number = self.next;
        if number > RECORDS {
            return None;
        }
        let mut bytes = [0u8; RECORD];
        match fill(&mut self.reader, &mut bytes) {
            Ok(0) => {
                self.next = RECORDS + 1;
                None
            }
            Ok(size) => {
                self.next = number + 1;
                Some(Ok(Record {
                    number,
                    bytes,
                    size,
                }))
            }
            Err(e) => {
                self.next = number + 1;
                Some(Err(e))
            }
        }
    }
}
