// What all places got, and what the turns add up to.
use crate::got::Got;
use crate::turns::Turns;
use cell::Cell;
use chooser::PLACES;
use replay::Played;

/// What each place got of the events that were played, and what the turns add up to.
#[derive(Clone, Copy, PartialEq, Eq, Debug)]
pub struct Sums {
    /// One for each place, from 0 on.
    pub places: [Got; PLACES],
    /// The cell's turns.
    pub turns: Turns,
}

impl Sums {
    ghost use Rattle.std.specs.Prelude.{◌≡◌, replicate};
    ghost use Rattle.cell.specs.View.{view};
    ghost use Rattle.chooser.specs.declared.TheConstants.{PLACES};
    ghost use Rattle.record.specs.Layout.{contents};
    ghost use Rattle.summary.specs.Adding.{none, turns_after};
    ghost use Rattle.summary.specs.Getting.{nothing};
    ghost use Rattle.summary.specs.Places.{places_after};

    /// Before the first event.
    pub fn new() -> Sums
        ensures places { result.places ≡ replicate PLACES nothing }
        ensures turns { result.turns ≡ none }
    {
        Sums {
            places: [Got::new(); PLACES],
            turns: Turns::new(),
        }
    }

    /// Counts one more event: what was played, and the cell after it.
    pub fn count<C>(&mut self, played: Played<'_>, cell: &Cell<C>)
        ensures places { self.new.places ≡
            places_after (contents played.entry.event) played.entry.result (view cell.now) self.old.places }
        ensures turns { self.new.turns ≡ turns_after played.entry.result self.old.turns }
    {
        self.turns = self.turns.after(played.result);
        for place in 0..64u8 {
            let i = usize::from(place);
            self.places[i] = self.places[i].after(place, played, cell.session(place));
        }
    }
}

impl Default for Sums {
    fn default() -> Sums {
        Sums::new()
    }
}
