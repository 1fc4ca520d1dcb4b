// A job sheet: how the cell and each of its open places stand after a record.
ghost use Rattle.std.specs.Prelude.{◌≡◌, Some};
ghost use Rattle.cell.specs.Asked.{standings};
ghost use Rattle.cell.specs.View.{view};
ghost use Rattle.model.specs.Calls.{asked};
ghost use Rattle.joblags.specs.Sheets.{channel_word, head_of, head_words, line_of, line_words};
ghost use Rattle.joblags.specs.Sheets.{session_words, sheet_words, waiting_words};

use crate::balance::Balance;
use cell::{Cell, Standing};
use chooser::PLACES;
use std::fmt;

// Its first line.
#[derive(Clone, Copy)]
pub(crate) struct Head {
    pub after: u64,
    pub mark: u64,
    pub booked: u32,
    pub turns: u32,
}

impl Head {
    // That of the sheet of a cell after so many records.
    fn of<C>(cell: &Cell<C>, after: u64) -> Head
        ensures { result ≡ head_of after (view cell.now) }
    {
        Head {
            after,
            mark: cell.mark(),
            booked: cell.booked(),
            turns: cell.turns(),
        }
    }
}

impl fmt::Display for Head {
    ghost output = { λ head. Some (head_words head) };

    fn fmt<W: fmt::Write>(&self, f: &mut fmt::Formatter<W>) -> fmt::Result {
        let Head {
            after,
            mark,
            booked,
            turns,
        } = *self;
        write!(
            f,
            "after record {after} mark {mark} booked {booked} turns {turns}"
        )
    }
}

// The line of an open place.
#[derive(Clone, Copy)]
pub(crate) struct Line {
    pub place: u8,
    pub standing: Standing,
}

impl Line {
    // None where the place isn't open. No `From`: it is made of a cell and a place.
    fn of<C>(cell: &Cell<C>, place: u8) -> Option<Line>
        ensures { result ≡ line_of place (standings (asked (view cell.now) place)) }
    {
        cell.session(place)
            .ok()
            .map(|standing| Line { place, standing })
    }
}

// Where a session is, what it has booked, and how far it is.
#[derive(Clone, Copy)]
struct Session {
    place: u8,
    rate: u32,
    time: u64,
}

impl fmt::Display for Session {
    ghost output = { λ s. Some (session_words s.place s.rate s.time) };

    fn fmt<W: fmt::Write>(&self, f: &mut fmt::Formatter<W>) -> fmt::Result {
        let Session { place, rate, time } = *self;
        write!(f, "place {place:>2} rate {rate:>6} time {time:>16}")
    }
}

// The word for a channel.
fn channel(good: bool) -> &'static str
    ensures { result.now ≡ channel_word good }
{
    if good { "good" } else { "bad" }
}

// What it waits for: the bytes that it is owed, its channel, and how many frames.
#[derive(Clone, Copy)]
struct Waiting {
    lag: i64,
    good: bool,
    frames: usize,
}

impl fmt::Display for Waiting {
    ghost output = { λ w. Some (waiting_words w.lag w.good w.frames) };

    fn fmt<W: fmt::Write>(&self, f: &mut fmt::Formatter<W>) -> fmt::Result {
        let Waiting { lag, good, frames } = *self;
        let balance = Balance::from(lag).word();
        let channel = channel(good);
        write!(
            f,
            "lag {lag:>11} {balance:<5} channel {channel:<4} waiting {frames:>2}"
        )
    }
}

// The widths hold whatever a million records bring: 16 digits of virtual time, 10 of lag and its sign.
impl fmt::Display for Line {
    ghost output = { λ line. Some (line_words line) };

    fn fmt<W: fmt::Write>(&self, f: &mut fmt::Formatter<W>) -> fmt::Result {
        let Line { place, standing } = *self;
        let session = Session {
            place,
            rate: standing.rate,
            time: standing.virtual_time,
        };
        let waiting = Waiting {
            lag: standing.lag,
            good: standing.good,
            frames: standing.waiting,
        };
        write!(f, "{session} {waiting}")
    }
}

#[derive(Drop)]
pub(crate) struct Sheet<'a, C> {
    pub after: u64,
    pub cell: &'a Cell<C>,
}

impl<C> fmt::Display for Sheet<'_, C> {
    ghost output = { λ sheet. Some (sheet_words sheet.after (view sheet.cell.now)) };

    fn fmt<W: fmt::Write>(&self, f: &mut fmt::Formatter<W>) -> fmt::Result {
        writeln!(f, "{}", Head::of(self.cell, self.after))?;
        for place in 0..PLACES as u8 {
            if let Some(line) = Line::of(self.cell, place) {
                writeln!(f, "{line}")?;
            }
        }
        Ok(())
    }
}
