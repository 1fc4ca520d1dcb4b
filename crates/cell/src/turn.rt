// The turn.
ghost use Rattle.std.specs.Prelude.{◌≡◌, Ok};
ghost use Rattle.answer.specs.declared.turn.Answer.TheVariants.{Turn as Turned};
ghost use Rattle.chooser.specs.Meaning.{meant};
ghost use Rattle.chooser.specs.Offers.{lag_bound};
ghost use Rattle.chooser.specs.Tellings.{told_all};
ghost use Rattle.model.specs.Calls.{turn as a_turn, answer_to, cell_after, served_in};
ghost use Rattle.model.specs.Departures.{departures};
ghost use Rattle.model.specs.Sound.{Midway as TheMidway};
ghost use Rattle.model.specs.Table.{at};
ghost use Rattle.table.specs.Places.{table_of};
ghost use Rattle.cell.specs.Answers.{turned_as};
ghost use Rattle.cell.specs.Turns.{chosen_as, next};
ghost use Rattle.cell.specs.View.{alone, cell_of};
ghost use Rattle.cell.specs.Ways.{way_as};

use super::decide::Way;
use super::rows::row_at;
use super::schedule::Schedule;
use super::send::carry_out;
use super::settle::{Before, Roll};
use answer::{Refusal, Turn};
use chooser::{Chooser, MOST_TURNS, PLACES, Place};
use departure::Midway;
use session::Row;
use table::{due, first_to_depart};

impl Schedule {
    /// One turn: the chosen session sends, or hands the turn on, and pays for it. Refused while no
    /// session is active, and after 2,000,000,000 turns.
    pub fn turn<C: Chooser>(&mut self, chooser: &mut C) -> Result<Turn, Refusal>
        ensures answer { turned_as result ≡
            answer_to (meant C.Chooser) (cell_of self.old chooser.old) a_turn }
        ensures after { cell_of self.new chooser.new ≡
            cell_after (meant C.Chooser) (cell_of self.old chooser.old) a_turn }
    {
        let chosen = self.next()?;
        Ok(self.pass(chooser, chosen))
    }

    // Whose turn it is.
    fn next(&self) -> Result<Place, Refusal>
        ensures { chosen_as result ≡ next (alone self.now) }
    {
        let place = due(&self.rows).ok_or(Refusal::NoneActive)?;
        if self.turns >= MOST_TURNS {
            return Err(Refusal::TurnsUsedUp);
        }
        Ok(place)
    }

    // The turn of the place that is next, from who sends in it to who joined a list by it.
    // Midway the books are not in order, so the steps take parts of the schedule and not the whole.
    fn pass<C: Chooser>(&mut self, chooser: &mut C, chosen: Place) -> Turn
        requires { Ok chosen.number ≡ next (alone self.old) }
        ensures answer { Ok (Turned result) ≡
            answer_to (meant C.Chooser) (cell_of self.old chooser.old) a_turn }
        ensures after { cell_of self.new chooser.new ≡
            cell_after (meant C.Chooser) (cell_of self.old chooser.old) a_turn }
    {
        let before = Before::look(&self.rows);
        let roll = Roll { rows: &self.rows };
        let way = roll.decide(chooser, chosen);
        let turn = carry_out(&mut self.rows, self.keep, chosen, way);
        tell_served(chooser, way, &self.rows, turn.length);
        leave(&mut self.rows);
        let roll = Roll { rows: &self.rows };
        self.mark = roll.settle(chooser, &before, self.mark);
        self.turns += 1;
        turn
    }
}

// The chooser is told who was served in another's turn.
fn tell_served<C: Chooser>(chooser: &mut C, way: Way, rows: &[Row; PLACES], bytes: u16)
    ensures { chooser.new ≡ told_all (meant C.Chooser) chooser.old
        (served_in (table_of rows.now) (way_as way) bytes) }
{
    if let Way::HandedOn(list, place) = way {
        chooser.served(list, place.index(), bytes, price(rows, place));
    }
}

fn price(rows: &[Row; PLACES], place: Place) -> u32
    ensures { result ≡ (at (table_of rows.now) place.number).price }
{
    row_at(rows, place).price
}

// Those depart who have nothing to send and do not lead: in nearly every turn nobody.
#[tactic(auto, using(departure::proofs::Releases::departures_none))]
fn leave(rows: &mut [Row; PLACES])
    requires { TheMidway lag_bound (table_of rows.old) }
    ensures { table_of rows.new ≡ departures (table_of rows.old) }
{
    if first_to_depart(rows).is_some() {
        let table = Midway { rows: *rows };
        *rows = table.departed();
    }
}
