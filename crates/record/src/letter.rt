// The letters that records begin with.
ghost use Rattle.std.specs.Prelude.{◌≡◌};
ghost use Rattle.std.specs.Option.{ok_or};
ghost use Rattle.answer.specs.declared.refusal.Refusal.TheVariants.{UnknownLetter};
ghost use Rattle.record.specs.Layout.{unused};
ghost use Rattle.record.specs.Letters.{byte_of, letter_of};

use crate::layout::{LENGTH, NOTE, PLACE, VALUE};
use answer::Refusal;
use std::ops::Range;

/// Opening, closing, arrival, good and bad channel, turn.
#[derive(Clone, Copy, PartialEq, Eq, Debug)]
pub enum Letter {
    O,
    C,
    A,
    G,
    B,
    T,
}

/// The letter that a character is, or `UnknownLetter` if it is none of the six.
impl TryFrom<char> for Letter {
    type Error = Refusal;

    ghost try_from_gives = { λ c r. r ≡ ok_or (letter_of c) UnknownLetter };

    fn try_from(c: char) -> Result<Letter, Refusal> {
        match c {
            'O' => Ok(Letter::O),
            'C' => Ok(Letter::C),
            'A' => Ok(Letter::A),
            'G' => Ok(Letter::G),
            'B' => Ok(Letter::B),
            'T' => Ok(Letter::T),
            _ => Err(Refusal::UnknownLetter),
        }
    }
}

/// The byte that it is written as.
impl From<Letter> for u8 {
    ghost from_gives = { λ letter byte. byte ≡ byte_of letter };

    fn from(letter: Letter) -> u8 {
        match letter {
            Letter::O => b'O',
            Letter::C => b'C',
            Letter::A => b'A',
            Letter::G => b'G',
            Letter::B => b'B',
            Letter::T => b'T',
        }
    }
}

impl Letter {
    // The part of a record that it leaves unused.
    pub(crate) fn unused(self) -> Range<usize>
        ensures { result ≡ unused self }
    {
        match self {
            Letter::O => LENGTH..VALUE,
            Letter::A => NOTE..NOTE,
            Letter::T => PLACE..NOTE,
            Letter::C | Letter::G | Letter::B => LENGTH..NOTE,
        }
    }
}
