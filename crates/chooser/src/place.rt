// A place of the cell.
ghost use Rattle.std.specs.Prelude.{◌<◌};
ghost use Rattle.chooser.specs.declared.TheConstants.{PLACES};

use super::PLACES;

/// A place of the cell. Whoever holds one knows that there is such a place, and need not check it.
#[derive(Clone, Copy, PartialEq, Eq, Debug)]
pub struct Place {
    number: u8,
    ghost inside: { number < PLACES },
}

impl Place {
    ghost use Rattle.std.specs.Prelude.{◌≡◌};
    ghost use Rattle.chooser.specs.Places.{numbers, place_numbered};

    /// The place of this number, if there is one.
    pub fn new(number: usize) -> Option<Place>
        ensures { numbers result ≡ place_numbered number }
    {
        if number < PLACES {
            Some(Place {
                number: number as u8,
            })
        } else {
            None
        }
    }

    /// Its number, as calls and answers name it.
    pub fn number(self) -> u8
        ensures { result ≡ self.number }
    {
        self.number
    }

    /// Where a row of all places has it.
    pub fn index(self) -> usize
        ensures is { result ≡ self.number }
        ensures inside { result < PLACES }
    {
        usize::from(self.number)
    }
}
