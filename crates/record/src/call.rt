// What a cell can be asked to do.
ghost use Rattle.std.specs.Prelude.{◌≡◌};
ghost use Rattle.record.specs.Layout.{event_call};

use crate::event::Event;

/// A call on a cell, as a record says it without its note. Places are 0 to 255 here: it is the cell that refuses one.
#[derive(Clone, Copy, PartialEq, Eq, Debug)]
pub enum Call {
    /// A session opens at a rate, in units of the link.
    Open { place: u8, rate: u32 },
    /// A session closes.
    Close { place: u8 },
    /// A frame of so many bytes arrives, with its tag.
    Arrive { place: u8, length: u16, tag: u32 },
    /// The channel is good.
    Good { place: u8 },
    /// The channel is bad.
    Bad { place: u8 },
    /// A turn is to be given away.
    Turn,
}

/// The call of an event.
impl From<Event<'_>> for Call {
    ghost from_gives = { λ event call. call ≡ event_call event };

    fn from(event: Event<'_>) -> Call {
        match event {
            Event::Open { place, rate, .. } => Call::Open { place, rate },
            Event::Close { place, .. } => Call::Close { place },
            Event::Arrive {
                place,
                length,
                tag,
                ..
            } => Call::Arrive { place, length, tag },
            Event::Good { place, .. } => Call::Good { place },
            Event::Bad { place, .. } => Call::Bad { place },
            Event::Turn { .. } => Call::Turn,
        }
    }
}
