// Reading a recording from an input, sixteen bytes at a time.
#![tactic(auto)]

ghost use Rattle.std.specs.Prelude.{◌≤◌, IfOk, OnErr};
ghost use Rattle.recording.specs.Failures.{Notes};
ghost use Rattle.recording.specs.Taking.{Takes, TakesSome};

use record::RECORD;
use std::io;
use std::io::Read;

mod noted;
mod records;

pub use noted::Noted;
pub use records::{Record, Records};

/// How many records of a recording are read at most.
pub const RECORDS: u64 = 1_000_000;

/// How many bytes they have.
pub const BYTES: u64 = RECORD as u64 * RECORDS;

/// Reads until the sixteen bytes are full or the input ends, and answers how many there are, as `read_exact` would not. It
/// succeeds unless a read failed, and the error is that read's.
#[tactic(auto, using(crate::proofs::Taken::taken_more, crate::proofs::Taken::taken_some))]
pub fn fill<R: Read>(reader: &mut Noted<R>, bytes: &mut [u8; RECORD]) -> io::Result<usize>
    ensures size { IfOk result (λ n. n ≤ RECORD) }
    ensures bytes { IfOk result (Takes (R.remaining reader.old.inner) (R.remaining reader.new.inner) bytes.new) }
    ensures err { OnErr result (TakesSome (R.remaining reader.old.inner) (R.remaining reader.new.inner)) }
    ensures failure { Notes reader.old.failure reader.new.failure result }
{
    let mut at = 0;
    while at < RECORD {
        let n = reader.read(&mut bytes[at..RECORD])?;
        if n == 0 {
            break;
        }
        at += n;
    }
    Ok(at)
}

#[cfg(test)]
mod tests {
    use super::*;
    use std::test::Fail;

    // An input of the bytes 1, 2 and so on, that gives one at a time.
    #[derive(Drop)]
    struct Slow {
        given: u8,
        end: u8,
    }

    impl Read for Slow {
        fn read(&mut self, buf: &mut [u8]) -> io::Result<usize> {
            if buf.is_empty() || self.given >= self.end {
                return Ok(0);
            }
            self.given += 1;
            buf[0] = self.given;
            Ok(1)
        }
    }

    // The contract speaks of an input that says which bytes it has. This one does not, so it is tested that they come in
    // order and none is left out.
    #[test]
    fn one_byte_at_a_time(rt: HostRuntime) -> Result<(), Fail> {
        for (end, full) in [(0, 0), (1, 1), (15, 15), (16, 16), (40, 16)] {
            let mut reader = Noted::new(Slow { given: 0, end });
            let mut bytes = [0u8; 16];
            let n = fill(&mut reader, &mut bytes)?;
            assert_eq!(rt; n, full);
            for (b, given) in bytes[..n].iter().zip(1..=16) {
                assert_eq!(rt; *b, given);
            }
        }
        Ok(())
    }

    // Two whole records and a half, and none after them.
    #[test]
    fn in_order(rt: HostRuntime) -> Result<(), Fail> {
        let mut records = Records::new(Slow { given: 0, end: 40 });
        for (number, size, first) in [(1, 16, 1), (2, 16, 17), (3, 8, 33)] {
            let record = records.next().ok_or("no record")??;
            assert_eq!(rt; record.number, number);
            assert_eq!(rt; record.bytes().len(), size);
            assert_eq!(rt; record.bytes().first().copied(), Some(first));
        }
        for _ in 0..2 {
            assert!(rt; records.next().is_none());
        }
        Ok(())
    }

    #[test]
    fn a_million_records(rt: HostRuntime) {
        assert_eq!(rt; RECORDS, 1_000_000);
        assert_eq!(rt; BYTES, RECORDS * 16);
    }
}
