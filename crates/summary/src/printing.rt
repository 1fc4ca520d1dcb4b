// The table of what each place got.
ghost use Rattle.std.specs.Prelude.{OnOk, slice_index_or};
ghost use Rattle.std.specs.Io.KnownBytes.{Appends};
ghost use Rattle.summary.specs.Table.{booked_text, bytes_text, heading, lags_text, missed_text, narrow, open_text};
ghost use Rattle.summary.specs.Table.{percent, row_text, rows_text, sent_text, shares_text, signed, spare_text};
ghost use Rattle.summary.specs.Table.{table_text, used_text, wide};

use crate::counting::{plus, tenths};
use crate::got::Got;
use crate::sums::Sums;
use crate::turns::Turns;
use std::io;
use std::io::Write;

fn print_narrow<W: Write>(out: &mut W, n: u64) -> io::Result<()>
    ensures { OnOk result (Appends (W.contents out.old) (W.contents out.new) (narrow n)) }
{
    write!(out, " {n:>7}")
}

fn print_wide<W: Write>(out: &mut W, n: u64) -> io::Result<()>
    ensures { OnOk result (Appends (W.contents out.old) (W.contents out.new) (wide n)) }
{
    write!(out, " {n:>11}")
}

fn print_signed<W: Write>(out: &mut W, n: i64) -> io::Result<()>
    ensures { OnOk result (Appends (W.contents out.old) (W.contents out.new) (signed n)) }
{
    write!(out, " {n:>11}")
}

fn print_percent<W: Write>(out: &mut W, tenths: u128) -> io::Result<()>
    ensures { OnOk result (Appends (W.contents out.old) (W.contents out.new) (percent tenths)) }
{
    write!(out, " {:>5}.{}", tenths / 10, tenths % 10)
}

fn print_booked<W: Write>(out: &mut W, place: u8, got: &Got) -> io::Result<()>
    ensures { OnOk result (Appends (W.contents out.old) (W.contents out.new) (booked_text place got.now)) }
{
    print_narrow(out, u64::from(place))?;
    print_narrow(out, u64::from(got.rate))?;
    print_narrow(out, u64::from(got.price))
}

fn print_sent<W: Write>(out: &mut W, got: &Got) -> io::Result<()>
    ensures { OnOk result (Appends (W.contents out.old) (W.contents out.new) (sent_text got.now)) }
{
    print_wide(out, plus(got.own, got.borrowed))?;
    print_wide(out, got.own)?;
    print_wide(out, got.borrowed)
}

fn print_missed<W: Write>(out: &mut W, got: &Got) -> io::Result<()>
    ensures { OnOk result (Appends (W.contents out.old) (W.contents out.new) (missed_text got.now)) }
{
    print_narrow(out, got.lost)?;
    print_narrow(out, got.refused)
}

fn print_lags<W: Write>(out: &mut W, got: &Got) -> io::Result<()>
    ensures { OnOk result (Appends (W.contents out.old) (W.contents out.new) (lags_text got.now)) }
{
    print_signed(out, got.highest)?;
    print_signed(out, got.lowest)
}

fn print_shares<W: Write>(out: &mut W, bytes: u64, got: &Got) -> io::Result<()>
    ensures { OnOk result (Appends (W.contents out.old) (W.contents out.new) (shares_text bytes got.now)) }
{
    print_percent(out, tenths(plus(got.own, got.borrowed), bytes))?;
    print_percent(out, tenths(1, u64::from(got.price)))?;
    out.write_all(b"\n")
}

fn print_open<W: Write>(out: &mut W, bytes: u64, place: u8, got: &Got) -> io::Result<()>
    ensures { OnOk result (Appends (W.contents out.old) (W.contents out.new) (open_text bytes place got.now)) }
{
    print_booked(out, place, got)?;
    print_sent(out, got)?;
    print_missed(out, got)?;
    print_lags(out, got)?;
    print_shares(out, bytes, got)
}

fn print_row<W: Write>(out: &mut W, bytes: u64, place: u8, got: &Got) -> io::Result<()>
    ensures { OnOk result (Appends (W.contents out.old) (W.contents out.new) (row_text bytes place got.now)) }
{
    if got.rate == 0 {
        Ok(())
    } else {
        print_open(out, bytes, place, got)
    }
}

fn print_rows<W: Write>(out: &mut W, sums: &Sums) -> io::Result<()>
    ensures { OnOk result (Appends (W.contents out.old) (W.contents out.new) (rows_text sums.now 64)) }
{
    for place in 0..64u8 {
        print_row(
            out,
            sums.turns.bytes,
            place,
            &sums.places[usize::from(place)],
        )?;
    }
    Ok(())
}

fn print_used<W: Write>(out: &mut W, turns: &Turns) -> io::Result<()>
    ensures { OnOk result (Appends (W.contents out.old) (W.contents out.new) (used_text turns.now)) }
{
    let Turns {
        normal,
        credit,
        kept,
        ..
    } = turns;
    write!(
        out,
        "turns: {normal} own, {credit} paid back, {kept} kept, "
    )
}

fn print_spare<W: Write>(out: &mut W, turns: &Turns) -> io::Result<()>
    ensures { OnOk result (Appends (W.contents out.old) (W.contents out.new) (spare_text turns.now)) }
{
    writeln!(out, "{} extra, {} idle", turns.extra, turns.idle)
}

fn print_bytes<W: Write>(out: &mut W, turns: &Turns) -> io::Result<()>
    ensures { OnOk result (Appends (W.contents out.old) (W.contents out.new) (bytes_text turns.now)) }
{
    writeln!(out, "bytes: {}", turns.bytes)
}

fn print_heading<W: Write>(out: &mut W) -> io::Result<()>
    ensures { OnOk result (Appends (W.contents out.old) (W.contents out.new) heading) }
{
    out.write_all(
        b"   place    rate   price        sent         own    borrowed    lost refused     highest      lowest  share%   link%\n",
    )
}

/// Prints the table: a heading, a row for each place that was open, and a line for the cell's turns and for its bytes.
pub fn print<W: Write>(out: &mut W, sums: &Sums) -> io::Result<()>
    ensures { OnOk result (Appends (W.contents out.old) (W.contents out.new) (table_text sums.now)) }
{
    print_heading(out)?;
    print_rows(out, sums)?;
    print_used(out, &sums.turns)?;
    print_spare(out, &sums.turns)?;
    print_bytes(out, &sums.turns)
}
