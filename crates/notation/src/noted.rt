// A call with the note of its record.
use record::{Call, Event, NOTE_LENGTH};

/// An event that holds its note itself, as a line of text says it.
#[derive(Clone, Copy, PartialEq, Eq, Debug)]
pub struct NotedCall {
    /// The call.
    pub call: Call,
    /// The note of its record.
    pub note: [u8; NOTE_LENGTH],
}

impl NotedCall {
    ghost use Rattle.std.specs.Prelude.{◌≡◌};
    ghost use Rattle.record.specs.Layout.{contents, recorded};

    /// The event, with the note lying here.
    pub fn event(&self) -> Event<'_>
        ensures { contents result ≡ recorded self.now.call self.now.note }
    {
        let note = self.note.as_slice();
        match self.call {
            Call::Open { place, rate } => Event::Open { place, rate, note },
            Call::Close { place } => Event::Close { place, note },
            Call::Arrive { place, length, tag } => Event::Arrive {
                place,
                length,
                tag,
                note,
            },
            Call::Good { place } => Event::Good { place, note },
            Call::Bad { place } => Event::Bad { place, note },
            Call::Turn => Event::Turn { note },
        }
    }
}
