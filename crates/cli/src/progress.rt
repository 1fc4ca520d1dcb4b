// The progress of long work, told as its input passes.
ghost use Rattle.std.specs.Prelude.{◌≡◌, false, OnOk};
ghost use Rattle.std.specs.Io.{ReadsAtMost};
ghost use Rattle.std.specs.Io.KnownBytes.{Appends, ReadConsumes};
ghost use Rattle.cli.specs.Progressing.{due, is_due, passed_by, progress_text};

use std::io;
use std::io::{Read, Write};

/// The bytes of a record.
pub const RECORD: u64 = 16;

/// After so many records progress is told.
pub const STEP: u64 = 100_000;

// Whether another step is full, by the bytes that had passed and those that have passed now.
fn another_step(before: u64, after: u64) -> bool
    ensures { result ≡ due before after }
{
    before / (RECORD * STEP) < after / (RECORD * STEP)
}

/// A reader that passes on what an input gives, and says on the error output how many records have passed: where it is
/// `told`, at every 100,000. An error of the error output is not looked at.
#[derive(Drop)]
pub struct Progress<'a, R, E> {
    pub name: &'static str,
    pub input: R,
    pub passed: u64,
    pub told: bool,
    pub errors: &'a mut E,
}

impl<'a, R, E> Progress<'a, R, E> {
    /// Nothing has passed yet. Progress goes to `errors`, headed by the program's name, where it is `told`.
    pub fn new(name: &'static str, input: R, told: bool, errors: &'a mut E) -> Progress<'a, R, E>
        ensures input { result.input ≡ input }
        ensures passed { result.passed ≡ 0 }
        ensures told { result.told ≡ told }
        ensures name { result.name.now ≡ name.now }
        ensures errors { result.errors.now ≡ errors.old }
    {
        Progress {
            name,
            input,
            passed: 0,
            told,
            errors,
        }
    }
}

impl<R: Read, E: Write> Read for Progress<'_, R, E> {
    ghost remaining = { λ p. R.remaining p.input };

    fn read(&mut self, buf: &mut [u8]) -> io::Result<usize>
        ensures bound { ReadsAtMost result buf.new }
        ensures bytes { ReadConsumes (R.remaining self.old.input) (R.remaining self.new.input) result buf.new }
        ensures passed { self.new.passed ≡ passed_by self.old.passed result }
        ensures silent { is_due self.old.told self.old.passed self.new.passed ≡ false →
            self.new.errors.now ≡ self.old.errors.now }
    {
        let n = self.input.read(buf)?;
        let before = self.passed;
        self.passed = before.saturating_add(n as u64);
        if self.told && another_step(before, self.passed) {
            let _ = tell(self.errors, self.name, self.passed / RECORD);
        }
        Ok(n)
    }
}

// Says how many records have passed.
fn tell<E: Write>(errors: &mut E, name: &str, records: u64) -> io::Result<()>
    ensures { OnOk result (Appends (E.contents errors.old) (E.contents errors.new) (progress_text name.now records)) }
{
    writeln!(errors, "{name}: {records} records")
}
