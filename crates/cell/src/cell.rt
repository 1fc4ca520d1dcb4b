// The cell: a schedule and the chooser that belongs to it.
use super::questions::Standing;
use super::schedule::Schedule;
use answer::{Refusal, Turn};
use chooser::Chooser;
use queue::Frame;
use std::error::Error;
use std::fmt;

/// A radio cell of 64 places. Its own calls alone change its parts, so that whatever is called on it,
/// it keeps the promises that `new` names. A call that is refused changes nothing.
#[derive(Drop)]
pub struct Cell<C> {
    schedule: Schedule,
    chooser: C,
}

/// Why there is no cell, and the chooser that it would have had.
#[derive(Debug, Drop)]
pub struct Unmade<C> {
    /// Always that the keep is too high.
    pub why: Refusal,
    /// As it was given.
    pub chooser: C,
}

/// Why, in the words of the refusal.
impl<C> fmt::Display for Unmade<C> {
    ghost use Rattle.std.specs.Prelude.{Some};
    ghost use Rattle.answer.specs.Names.{refusal_message};

    ghost output = { λ u. Some (refusal_message u.why) };

    fn fmt<W: fmt::Write>(&self, f: &mut fmt::Formatter<W>) -> fmt::Result {
        write!(f, "{}", self.why)
    }
}

impl<C: fmt::Debug + Drop> Error for Unmade<C> {}

impl<C: Chooser> Cell<C> {
    ghost use Rattle.std.specs.Prelude.{◌≡◌, IfErr};
    ghost use Rattle.model.specs.Calls.{opening, closing, arrival, report, turn as a_turn, make};
    ghost use Rattle.model.specs.Calls.{answer_to, cell_after, new};
    ghost use Rattle.model.specs.Further.{AllPromises};
    ghost use Rattle.chooser.specs.Meaning.{meant};
    ghost use Rattle.cell.specs.Answers.{made_as, done_as, turned_as};
    ghost use Rattle.cell.specs.View.{view};

    /// A new cell, whose leading sessions keep so many quarters of each charge. A keep above 4 is
    /// refused, and the chooser comes back.
    pub fn new(keep: u8, chooser: C) -> Result<Cell<C>, Unmade<C>>
        ensures made { made_as result ≡ make keep chooser }
        ensures back { IfErr result (λ u. u.chooser ≡ chooser) }
        ensures promises { AllPromises {C = C} (meant C.Chooser) (new keep chooser) }
    {
        Cell::of(keep, chooser)
    }

    fn of(keep: u8, chooser: C) -> Result<Cell<C>, Unmade<C>>
        ensures made { made_as result ≡ make keep chooser }
        ensures back { IfErr result (λ u. u.chooser ≡ chooser) }
    {
        match Schedule::new(keep) {
            Ok(schedule) => Ok(Cell { schedule, chooser }),
            Err(why) => Err(Unmade { why, chooser }),
        }
    }

    /// Opens a place at a rate of the tariff, in units of the link's 720,720.
    pub fn open(&mut self, place: u8, rate: u32) -> Result<(), Refusal>
        ensures answer { done_as result ≡
            answer_to (meant C.Chooser) (view self.old) (opening place rate) }
        ensures after { view self.new ≡
            cell_after (meant C.Chooser) (view self.old) (opening place rate) }
    {
        self.schedule.open(&mut self.chooser, place, rate)
    }

    /// Closes a place whose session is not active, once the mark has come up to its virtual time.
    pub fn close(&mut self, place: u8) -> Result<(), Refusal>
        ensures answer { done_as result ≡
            answer_to (meant C.Chooser) (view self.old) (closing place) }
        ensures after { view self.new ≡
            cell_after (meant C.Chooser) (view self.old) (closing place) }
    {
        self.schedule.close(&mut self.chooser, place)
    }

    /// Queues a frame that has come for an open place: of 1 to 1,536 bytes, where fewer than 32
    /// frames wait.
    pub fn arrive(&mut self, place: u8, frame: Frame) -> Result<(), Refusal>
        ensures answer { done_as result ≡
            answer_to (meant C.Chooser) (view self.old) (arrival place frame.tag frame.length) }
        ensures after { view self.new ≡
            cell_after (meant C.Chooser) (view self.old) (arrival place frame.tag frame.length) }
    {
        self.schedule.arrive(&mut self.chooser, place, frame)
    }

    /// Sets whether the channel of an open place is good.
    pub fn report(&mut self, place: u8, good: bool) -> Result<(), Refusal>
        ensures answer { done_as result ≡
            answer_to (meant C.Chooser) (view self.old) (report place good) }
        ensures after { view self.new ≡
            cell_after (meant C.Chooser) (view self.old) (report place good) }
    {
        self.schedule.report(&mut self.chooser, place, good)
    }

    /// One turn: the chosen session sends, or hands the turn on, and pays for it. Refused while no
    /// session is active, and after 2,000,000,000 turns.
    pub fn turn(&mut self) -> Result<Turn, Refusal>
        ensures answer { turned_as result ≡ answer_to (meant C.Chooser) (view self.old) a_turn }
        ensures after { view self.new ≡ cell_after (meant C.Chooser) (view self.old) a_turn }
    {
        self.schedule.turn(&mut self.chooser)
    }
}

impl<C> Cell<C> {
    ghost use Rattle.std.specs.Prelude.{◌≡◌, ◌≤◌};
    ghost use Rattle.model.specs.Calls.{asked};
    ghost use Rattle.model.specs.Table.{booked_total};
    ghost use Rattle.tariff.specs.Tariff.{link};
    ghost use Rattle.cell.specs.Asked.{standings, frames};
    ghost use Rattle.cell.specs.View.{view, cell_of};

    /// How the session of an open place stands.
    pub fn session(&self, place: u8) -> Result<Standing, Refusal>
        ensures { result ≡ standings (asked (view self.now) place) }
    {
        self.schedule.session(place)
    }

    /// The i-th frame, from 0, that waits at an open place.
    pub fn frame(&self, place: u8, i: usize) -> Result<Option<Frame>, Refusal>
        ensures { result ≡ frames (asked (view self.now) place) i }
    {
        self.schedule.frame(place, i)
    }

    /// The virtual time that the cell has come to.
    pub fn mark(&self) -> u64
        ensures { result ≡ (view self.now).mark }
    {
        self.schedule.mark()
    }

    /// The rates of all open places together, in units of the link's 720,720.
    pub fn booked(&self) -> u32
        ensures is { result ≡ booked_total (view self.now).table }
        ensures most { result ≤ link }
    {
        self.schedule.booked()
    }

    /// How many turns the cell has accepted.
    pub fn turns(&self) -> u32
        ensures { result ≡ (view self.now).turns }
    {
        self.schedule.turns()
    }

    /// What a leading session earns of each charge, in quarters.
    pub fn keep(&self) -> u8
        ensures { result ≡ (view self.now).keep }
    {
        self.schedule.keep()
    }

    /// The chooser, as it stands now.
    pub fn chooser(&self) -> &C
        ensures { result.now ≡ (view self.now).chooser }
    {
        &self.chooser
    }

    /// Its two parts, for a library that keeps them in memory of its own.
    pub fn into_parts(self) -> (Schedule, C)
        ensures { cell_of result.0 result.1 ≡ view self }
    {
        (self.schedule, self.chooser)
    }
}
