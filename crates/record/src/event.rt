// What a record says.
ghost use Rattle.std.specs.Prelude.{◌≡◌};
ghost use Rattle.record.specs.Layout.{contents, saying, used};

use crate::letter::Letter;

/// What a record says: a call on a cell, with the note of the record, a part of the bytes that were read.
#[derive(Clone, Copy, PartialEq, Eq, Debug)]
pub enum Event<'a> {
    /// A session opens at a rate, in units of the link.
    Open {
        place: u8,
        rate: u32,
        note: &'a [u8],
    },
    /// A session closes.
    Close {
        place: u8,
        note: &'a [u8],
    },
    /// A frame of so many bytes arrives, with its tag.
    Arrive {
        place: u8,
        length: u16,
        tag: u32,
        note: &'a [u8],
    },
    /// The channel is good.
    Good {
        place: u8,
        note: &'a [u8],
    },
    /// The channel is bad.
    Bad {
        place: u8,
        note: &'a [u8],
    },
    /// A turn is to be given away.
    Turn {
        note: &'a [u8],
    },
}

impl<'a> Event<'a> {
    // The event of a letter, from the parts of a record.
    pub(crate) fn of(
        letter: Letter,
        place: u8,
        length: u16,
        value: u32,
        note: &'a [u8],
    ) -> Event<'a>
        ensures { contents result ≡ used letter (saying letter place length value note.now) }
    {
        match letter {
            Letter::O => Event::Open {
                place,
                rate: value,
                note,
            },
            Letter::C => Event::Close { place, note },
            Letter::A => Event::Arrive {
                place,
                length,
                tag: value,
                note,
            },
            Letter::G => Event::Good { place, note },
            Letter::B => Event::Bad { place, note },
            Letter::T => Event::Turn { note },
        }
    }

    /// The letter of its record.
    pub fn letter(self) -> Letter
        ensures { result ≡ (contents self.entry).letter }
    {
        match self {
            Event::Open { .. } => Letter::O,
            Event::Close { .. } => Letter::C,
            Event::Arrive { .. } => Letter::A,
            Event::Good { .. } => Letter::G,
            Event::Bad { .. } => Letter::B,
            Event::Turn { .. } => Letter::T,
        }
    }

    /// The note of its record.
    pub fn note(self) -> &'a [u8]
        ensures { result.now ≡ (contents self.entry).note }
    {
        match self {
            Event::Open { note, .. }
            | Event::Close { note, .. }
            | Event::Arrive { note, .. }
            | Event::Good { note, .. }
            | Event::Bad { note, .. }
            | Event::Turn { note } => note,
        }
    }

    // Place, length and value of its record: 0 where its letter leaves them unused, as the record has zero bytes there.
    pub(crate) fn numbers(self) -> (u8, u16, u32)
        ensures place { result.0 ≡ (contents self.entry).place }
        ensures length { result.1 ≡ (contents self.entry).length }
        ensures value { result.2 ≡ (contents self.entry).value }
    {
        match self {
            Event::Open { place, rate, .. } => (place, 0, rate),
            Event::Arrive {
                place,
                length,
                tag,
                ..
            } => (place, length, tag),
            Event::Close { place, .. } | Event::Good { place, .. } | Event::Bad { place, .. } => {
                (place, 0, 0)
            }
            Event::Turn { .. } => (0, 0, 0),
        }
    }
}
