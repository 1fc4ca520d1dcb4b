// The line of a place.
ghost use Rattle.std.specs.Prelude.{◌≡◌, OnOk};
ghost use Rattle.std.specs.Io.KnownBytes.{Appends};
ghost use Rattle.cell.specs.Asked.{frames, standings};
ghost use Rattle.cell.specs.View.{view};
ghost use Rattle.chooser.specs.declared.entry.ListKind.TheVariants.{Credit, Extra};
ghost use Rattle.model.specs.Calls.{asked};
ghost use Rattle.states.specs.Texts.{channel_word, closed_text, counts_text, frame_text, frames_text, line_of_place};
ghost use Rattle.states.specs.Texts.{channel_text, open_text, price_text, standing_text, times_text};
ghost use Rattle.states.specs.Texts.{waiting_text, yes_or_no};

use crate::figures::Figures;
use answer::Refusal;
use cell::{Cell, Standing};
use chooser::ListKind;
use queue::Frame;
use std::io;
use std::io::Write;

// A frame that waits, where there is one.
fn print_frame<W: Write>(out: &mut W, frame: Result<Option<Frame>, Refusal>) -> io::Result<()>
    ensures { OnOk result (Appends (W.contents out.old) (W.contents out.new) (frame_text frame)) }
{
    if let Ok(Some(Frame { tag, length })) = frame {
        write!(out, " {tag}:{length}")?;
    }
    Ok(())
}

// The first frames that wait at a place, so many of them.
fn print_frames<C, W: Write>(
    out: &mut W,
    cell: &Cell<C>,
    place: u8,
    waiting: usize,
) -> io::Result<()>
    ensures { OnOk result (Appends (W.contents out.old) (W.contents out.new)
        (frames_text (λ i. frames (asked (view cell.now) place) i) waiting)) }
{
    for i in 0..waiting {
        print_frame(out, cell.frame(place, i))?;
    }
    Ok(())
}

fn print_counts<W: Write>(out: &mut W, credit: u64, extra: u64) -> io::Result<()>
    ensures { OnOk result (Appends (W.contents out.old) (W.contents out.new) (counts_text credit extra)) }
{
    write!(out, " credit {credit} extra {extra}")
}

fn channel_word(good: bool) -> &'static str
    ensures { result.now ≡ channel_word good }
{
    if good { "good" } else { "bad" }
}

fn yes_or_no(yes: bool) -> &'static str
    ensures { result.now ≡ yes_or_no yes }
{
    if yes { "yes" } else { "no" }
}

fn print_price<W: Write>(out: &mut W, standing: &Standing) -> io::Result<()>
    ensures { OnOk result (Appends (W.contents out.old) (W.contents out.new) (price_text standing.now)) }
{
    write!(out, " rate {} price {}", standing.rate, standing.price)
}

fn print_times<W: Write>(out: &mut W, standing: &Standing) -> io::Result<()>
    ensures { OnOk result (Appends (W.contents out.old) (W.contents out.new) (times_text standing.now)) }
{
    let Standing {
        virtual_time,
        lag,
        allowance,
        ..
    } = standing;
    write!(out, " time {virtual_time} lag {lag} allowance {allowance}")
}

fn print_channel<W: Write>(out: &mut W, standing: &Standing) -> io::Result<()>
    ensures { OnOk result (Appends (W.contents out.old) (W.contents out.new) (channel_text standing.now)) }
{
    let channel = channel_word(standing.good);
    let active = yes_or_no(standing.active);
    write!(out, " channel {channel} active {active}")
}

fn print_standing<W: Write>(out: &mut W, standing: &Standing) -> io::Result<()>
    ensures { OnOk result (Appends (W.contents out.old) (W.contents out.new) (standing_text standing.now)) }
{
    print_price(out, standing)?;
    print_times(out, standing)?;
    print_channel(out, standing)
}

fn print_waiting<C, W: Write>(
    out: &mut W,
    cell: &Cell<C>,
    place: u8,
    waiting: usize,
) -> io::Result<()>
    ensures { OnOk result (Appends (W.contents out.old) (W.contents out.new)
        (waiting_text waiting (λ i. frames (asked (view cell.now) place) i))) }
{
    write!(out, " waiting {waiting}")?;
    print_frames(out, cell, place, waiting)?;
    out.write_all(b"\n")
}

fn print_open<C, W: Write>(
    out: &mut W,
    cell: &Cell<C>,
    place: u8,
    standing: &Standing,
    credit: u64,
    extra: u64,
) -> io::Result<()>
    ensures { OnOk result (Appends (W.contents out.old) (W.contents out.new)
        (open_text place credit extra standing.now (λ i. frames (asked (view cell.now) place) i))) }
{
    write!(out, "place {place}")?;
    print_standing(out, standing)?;
    print_counts(out, credit, extra)?;
    print_waiting(out, cell, place, standing.waiting)
}

fn print_closed<W: Write>(out: &mut W, place: u8, credit: u64, extra: u64) -> io::Result<()>
    ensures { OnOk result (Appends (W.contents out.old) (W.contents out.new) (closed_text place credit extra)) }
{
    if credit != 0 || extra != 0 {
        write!(out, "closed {place}")?;
        print_counts(out, credit, extra)?;
        out.write_all(b"\n")?;
    }
    Ok(())
}

// The line of a place, if it has one.
pub(crate) fn print_place<C: Figures, W: Write>(
    out: &mut W,
    cell: &Cell<C>,
    place: u8,
) -> io::Result<()>
    ensures { OnOk result (Appends (W.contents out.old) (W.contents out.new)
        (line_of_place C.figure (view cell.now) place)) }
{
    let credit = cell.chooser().figure(ListKind::Credit, place);
    let extra = cell.chooser().figure(ListKind::Extra, place);
    match cell.session(place) {
        Ok(standing) => print_open(out, cell, place, &standing, credit, extra),
        Err(_) => print_closed(out, place, credit, extra),
    }
}
