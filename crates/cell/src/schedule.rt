// The schedule of a cell, and the calls that change one place of it.
ghost use Rattle.model.specs.Sound.{InOrder};
ghost use Rattle.table.specs.Places.{table_of};

use super::rows::{Placed, row_at, set_row};
use super::send::QUARTERS;
use super::settle::Roll;
use answer::Refusal;
use chooser::{Chooser, LONGEST, ListKind, PLACES, Place};
use queue::Frame;
use session::Row;
use table::{mark_after, nobody_active};
use tariff::{LINK, Rate};

/// All that a cell keeps but its chooser, for a library that keeps both in memory of its own, as C's
/// is: a program has a [`Cell`](super::Cell), which is the two in one. Each call is lent the chooser
/// that the calls before it were lent; so the two together are a cell.
///
/// Its books are in order: from that follow all bounds on its numbers, and that every open place has
/// a rate of the tariff.
#[repr(C)]
#[derive(Drop)]
pub struct Schedule {
    pub(crate) rows: [Row; PLACES],
    pub(crate) mark: u64,
    // accepted so far
    pub(crate) turns: u32,
    // in quarters
    pub(crate) keep: u8,
    ghost ordered: { InOrder keep mark turns (table_of rows) },
}

impl Schedule {
    ghost use Rattle.std.specs.Prelude.{◌≡◌};
    ghost use Rattle.model.specs.Calls.{opening, closing, arrival, report, make};
    ghost use Rattle.model.specs.Calls.{answer_to, cell_after};
    ghost use Rattle.chooser.specs.Meaning.{meant};
    ghost use Rattle.cell.specs.Answers.{done_as, made_alone};
    ghost use Rattle.cell.specs.View.{cell_of};

    pub(crate) fn new(keep: u8) -> Result<Schedule, Refusal>
        ensures { made_alone result ≡ make keep tt }
    {
        if keep > QUARTERS {
            return Err(Refusal::KeepTooHigh);
        }
        let vacant = Row::vacant();
        Ok(Schedule {
            rows: [vacant; PLACES],
            mark: 0,
            turns: 0,
            keep,
        })
    }

    /// Opens a place at a rate of the tariff, in units of the link's 720,720.
    #[tactic(auto, using(crate::proofs::Steps::calls))]
    pub fn open<C: Chooser>(&mut self, chooser: &mut C, place: u8, rate: u32) -> Result<(), Refusal>
        ensures answer { done_as result ≡
            answer_to (meant C.Chooser) (cell_of self.old chooser.old) (opening place rate) }
        ensures after { cell_of self.new chooser.new ≡
            cell_after (meant C.Chooser) (cell_of self.old chooser.old) (opening place rate) }
    {
        let opened = self.opening(place, rate)?;
        chooser.cleared(opened.place.index());
        self.put(chooser, opened);
        Ok(())
    }

    /// Closes a place whose session is not active, once the mark has come up to its virtual time.
    #[tactic(auto, using(crate::proofs::Steps::calls))]
    pub fn close<C: Chooser>(&mut self, chooser: &mut C, place: u8) -> Result<(), Refusal>
        ensures answer { done_as result ≡
            answer_to (meant C.Chooser) (cell_of self.old chooser.old) (closing place) }
        ensures after { cell_of self.new chooser.new ≡
            cell_after (meant C.Chooser) (cell_of self.old chooser.old) (closing place) }
    {
        let closed = self.closing(place)?;
        self.put(chooser, closed);
        Ok(())
    }

    /// Queues a frame that has come for an open place: of 1 to 1,536 bytes, where fewer than 32
    /// frames wait.
    #[tactic(auto, using(crate::proofs::Steps::calls))]
    pub fn arrive<C: Chooser>(
        &mut self,
        chooser: &mut C,
        place: u8,
        frame: Frame,
    ) -> Result<(), Refusal>
        ensures answer { done_as result ≡ answer_to (meant C.Chooser)
            (cell_of self.old chooser.old) (arrival place frame.tag frame.length) }
        ensures after { cell_of self.new chooser.new ≡ cell_after (meant C.Chooser)
            (cell_of self.old chooser.old) (arrival place frame.tag frame.length) }
    {
        let arrived = self.arrival(place, frame)?;
        self.put(chooser, arrived);
        Ok(())
    }

    /// Sets whether the channel of an open place is good.
    #[tactic(auto, using(crate::proofs::Steps::calls))]
    pub fn report<C: Chooser>(
        &mut self,
        chooser: &mut C,
        place: u8,
        good: bool,
    ) -> Result<(), Refusal>
        ensures answer { done_as result ≡
            answer_to (meant C.Chooser) (cell_of self.old chooser.old) (report place good) }
        ensures after { cell_of self.new chooser.new ≡
            cell_after (meant C.Chooser) (cell_of self.old chooser.old) (report place good) }
    {
        let reported = self.reported(place, good)?;
        self.put(chooser, reported);
        Ok(())
    }
}

// What a call would make of its place, or why it is refused. Nothing changes here.
impl Schedule {
    ghost use Rattle.std.specs.Prelude.{◌≡◌};
    ghost use Rattle.model.specs.Calls.{opening, closing, arrival, report, arrived};
    ghost use Rattle.model.specs.Session.{vacant, fresh, with_good};
    ghost use Rattle.model.specs.Table.{at};
    ghost use Rattle.tariff.specs.Tariff.{price_of};
    ghost use Rattle.cell.specs.Plans.{sessions, found, opened, plan};
    ghost use Rattle.cell.specs.View.{alone};

    // The row of a place, open or not.
    fn found(&self, place: u8) -> Result<Placed<Row>, Refusal>
        ensures { sessions result ≡ found (alone self.now) place }
    {
        let place = Place::new(usize::from(place)).ok_or(Refusal::PlaceTooHigh)?;
        let held = *row_at(&self.rows, place);
        Ok(Placed { place, held })
    }

    // The row of an open place.
    pub(crate) fn opened(&self, place: u8) -> Result<Placed<Row>, Refusal>
        ensures { sessions result ≡ opened (alone self.now) place }
    {
        let found = self.found(place)?;
        if !found.held.booked {
            return Err(Refusal::PlaceNotOpen);
        }
        Ok(found)
    }

    fn opening(&self, place: u8, rate: u32) -> Result<Placed<Row>, Refusal>
        ensures { sessions result ≡
            plan (alone self.now) (opening place rate) place (fresh rate (price_of rate)) }
    {
        let found = self.found(place)?;
        if found.held.booked {
            return Err(Refusal::PlaceOpen);
        }
        let booked = Rate::try_from(rate)?;
        if rate > LINK - self.booked() {
            return Err(Refusal::LinkOverbooked);
        }
        Ok(Placed {
            place: found.place,
            held: Row::fresh(booked),
        })
    }

    fn closing(&self, place: u8) -> Result<Placed<Row>, Refusal>
        ensures { sessions result ≡ plan (alone self.now) (closing place) place vacant }
    {
        let Placed { place, held: row } = self.opened(place)?;
        if row.active {
            return Err(Refusal::SessionActive);
        }
        if row.virtual_time > self.mark {
            return Err(Refusal::AheadOfMark);
        }
        Ok(Placed {
            place,
            held: Row::vacant(),
        })
    }

    fn arrival(&self, place: u8, frame: Frame) -> Result<Placed<Row>, Refusal>
        ensures { sessions result ≡
            plan (alone self.now) (arrival place frame.tag frame.length) place
            (arrived self.now.mark frame (at (alone self.now).table place)) }
    {
        let mut found = self.opened(place)?;
        if frame.length == 0 || frame.length > LONGEST {
            return Err(Refusal::LengthOutOfRange);
        }
        found.held.receive(frame, self.mark)?;
        Ok(found)
    }

    fn reported(&self, place: u8, good: bool) -> Result<Placed<Row>, Refusal>
        ensures { sessions result ≡
            plan (alone self.now) (report place good) place
            (with_good good (at (alone self.now).table place)) }
    {
        let mut found = self.opened(place)?;
        found.held.report(good);
        Ok(found)
    }
}

impl Schedule {
    ghost use Rattle.std.specs.Prelude.{◌≡◌};
    ghost use Rattle.chooser.specs.Meaning.{meant};
    ghost use Rattle.session.specs.Seen.{seen};
    ghost use Rattle.cell.specs.Found.{with_session, BooksInOrder};
    ghost use Rattle.cell.specs.View.{cell_of};

    // Puts a row at its place, and settles: nobody but the session that is put there can join a list
    // by that.
    #[tactic(auto, using(crate::proofs::Joining::puts))]
    fn put<C: Chooser>(&mut self, chooser: &mut C, placed: Placed<Row>)
        requires { BooksInOrder (with_session (meant C.Chooser)
            (cell_of self.old chooser.old) placed.place.number (seen placed.held)) }
        ensures { cell_of self.new chooser.new ≡ with_session (meant C.Chooser)
            (cell_of self.old chooser.old) placed.place.number (seen placed.held) }
    {
        let idle = nobody_active(&self.rows);
        let roll = Roll { rows: &self.rows };
        roll.tell_of(chooser, ListKind::Credit, &placed);
        roll.tell_of(chooser, ListKind::Extra, &placed);
        set_row(&mut self.rows, placed.place, placed.held);
        self.mark = mark_after(&self.rows, idle, self.mark);
    }
}
