// A whole recording, to the last byte of an output with a buffer.
ghost use Rattle.std.specs.Prelude.{◌≡◌, [], IfSome, OnOk};
ghost use Rattle.std.specs.Io.Buffered.{writer_buffer, writer_contents};
ghost use Rattle.cell.specs.View.{view};
ghost use Rattle.chooser.specs.Meaning.{meant};
ghost use Rattle.player.specs.Lines.{lines_of};
ghost use Rattle.recording.specs.Recordings.{recording};
ghost use Rattle.replay.specs.Events.{calls_in};
ghost use Rattle.player.specs.Steps.{Ran};
ghost use Rattle.recording.specs.Failures.{Fails, Puts};
ghost use Rattle.recording.specs.Taking.{TakesUpTo};

use crate::records::play_records;
use cell::Cell;
use chooser::Chooser;
use recording::{BYTES, Noted, RECORDS};
use std::io;
use std::io::{BufWriter, Read, Write};

/// The same into an output with a buffer, which is empty at the end: all of the lines are written out.
pub fn play_out<C: Chooser, R: Read, W: Write + Drop>(
    cell: &mut Cell<C>,
    reader: &mut Noted<R>,
    out: &mut Noted<BufWriter<W>>,
) -> io::Result<()>
    ensures lines { IfSome (R.remaining reader.old.inner) (λ input.
        Puts (writer_contents W.contents out.old.inner) (writer_contents W.contents out.new.inner)
        (lines_of (meant C.Chooser) (view cell.old) (recording RECORDS 1 input)) result) }
    ensures written { OnOk result (writer_buffer out.new.inner ≡ []) }
    ensures reads { TakesUpTo BYTES (R.remaining reader.old.inner) (R.remaining reader.new.inner) }
    ensures failure { Fails reader.old.failure reader.new.failure out.old.failure out.new.failure result }
    ensures after { IfSome (R.remaining reader.old.inner) (λ input.
        Ran (meant C.Chooser) result (view cell.old) (calls_in (recording RECORDS 1 input).events) (view cell.new)) }
{
    play_records(cell, reader, out)?;
    out.write_out()
}
