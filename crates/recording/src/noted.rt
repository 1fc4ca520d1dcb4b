// An input or an output that keeps the error of its last failure, so that a contract can say where an error came from.
ghost use Rattle.std.specs.Prelude.{◌≡◌, ◌≤◌, [], None, Some, length, IfOk, OnErr, OnOk, take};
ghost use Rattle.std.specs.Io.{ReadsAtMost, WritesAtMost};
ghost use Rattle.std.specs.Io.KnownBytes.{Appends, Keeps, ReadConsumes, WriteAppends};
ghost use Rattle.std.specs.Io.Buffered.{writer_buffer, writer_contents};
ghost use Rattle.recording.specs.Failures.{Notes, Puts};

use std::io;
use std::io::{BufWriter, ErrorKind, Read, Write};

/// An input or an output that keeps the error of its last failure.
#[derive(Drop)]
pub struct Noted<S> {
    /// The input or output itself.
    pub inner: S,
    failure: Option<io::Error>,
}

impl<S> Noted<S> {
    /// One that has not failed yet.
    pub fn new(inner: S) -> Noted<S>
        ensures { result ≡ record { inner = inner; failure = None } }
    {
        Noted {
            inner,
            failure: None,
        }
    }
}

impl<R: Read> Read for Noted<R> {
    ghost remaining = { λ r. R.remaining r.inner };

    fn read(&mut self, buf: &mut [u8]) -> io::Result<usize>
        ensures bound { ReadsAtMost result buf.new }
        ensures bytes { ReadConsumes (R.remaining self.old.inner) (R.remaining self.new.inner) result buf.new }
        ensures failure { Notes self.old.failure self.new.failure result }
    {
        let result = self.inner.read(buf);
        if let Err(e) = result {
            self.failure = Some(e);
        }
        result
    }
}

impl<W: Write> Noted<W> {
    /// Writes all of a text; where a write fails, a front of it was written before, and the error is that write's.
    #[tactic(auto, using(crate::proofs::Taken::put_more))]
    pub fn put(&mut self, text: &[u8]) -> io::Result<()>
        ensures bytes { Puts (W.contents self.old.inner) (W.contents self.new.inner) text.now result }
        ensures failure { Notes self.old.failure self.new.failure result }
    {
        let mut at = 0;
        while at < text.len() {
            let n = self.write(&text[at..])?;
            if n == 0 {
                let e = io::Error::from(ErrorKind::WriteZero);
                self.failure = Some(e);
                return Err(e);
            }
            at += n;
        }
        Ok(())
    }

    fn write(&mut self, text: &[u8]) -> io::Result<usize>
        ensures bound { WritesAtMost result text.now }
        ensures bytes { WriteAppends (W.contents self.old.inner) (W.contents self.new.inner) result text.now }
        ensures failure { Notes self.old.failure self.new.failure result }
    {
        let result = self.inner.write(text);
        if let Err(e) = result {
            self.failure = Some(e);
        }
        result
    }
}

impl<W: Write + Drop> Noted<BufWriter<W>> {
    /// Writes out what the buffer holds.
    pub fn write_out(&mut self) -> io::Result<()>
        ensures bytes { Keeps (writer_contents W.contents self.old.inner) (writer_contents W.contents self.new.inner) }
        ensures empty { OnOk result (writer_buffer self.new.inner ≡ []) }
        ensures failure { Notes self.old.failure self.new.failure result }
    {
        let result = self.inner.flush();
        if let Err(e) = result {
            self.failure = Some(e);
        }
        result
    }
}
