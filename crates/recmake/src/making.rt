// Making a recording of a text.
ghost use Rattle.std.specs.Prelude.{◌≡◌, ◌++◌, ◌*◌, ◌≤◌, length, true, Ok, Err, Some, IfOk, IfErr, OnOk, is_ok};
ghost use Rattle.notation.specs.Reading.{reading};
ghost use Rattle.recmake.specs.Making.{Leaves, Makes, Stops, lines_of, record_of};

use crate::unmade::Unmade;
use notation::read;
use record::{RECORD, write};
use std::alloc::Global;

// How many records are made at most.
pub(crate) const RECORDS: usize = 1_000_000;

// Adds the record of the event that a line says, if it says one.
fn add_line(records: &mut Vec<u8>, number: usize, line: &[u8]) -> Result<(), Unmade>
    requires { length records.old.items ≤ RECORD * RECORDS }
    ensures added { OnOk result (records.new.items ≡ records.old.items ++ record_of line.now) }
    ensures read { OnOk result (is_ok (reading line.now) ≡ true) }
    ensures few { OnOk result (length records.new.items ≤ RECORD * RECORDS) }
    ensures stops { IfErr result (Leaves number (reading line.now) (length records.old.items)) }
{
    let event = match read(line) {
        Ok(Some(event)) => event,
        Ok(None) => return Ok(()),
        Err(why) => return Err(Unmade::Line { number, why }),
    };
    if records.len() + RECORD > RECORD * RECORDS {
        return Err(Unmade::TooMany { number });
    }
    let mut record = [0; RECORD];
    let Ok(()) = write(&event.event(), &mut record) else {
        unreachable!()
    };
    records.extend_from_slice(&record)?;
    Ok(())
}

// The records of the events that the lines of a text say.
pub(crate) fn records_of(alloc: Global, text: &[u8]) -> Result<Vec<u8>, Unmade>
    ensures made { IfOk result (λ bytes. Makes (lines_of text.now) bytes.items) }
    ensures stops { IfErr result (Stops (lines_of text.now)) }
{
    let mut records = Vec::new(alloc);
    for (before, line) in text.split(|b| *b == b'\n').enumerate() {
        add_line(&mut records, before + 1, line)?;
    }
    Ok(records)
}
