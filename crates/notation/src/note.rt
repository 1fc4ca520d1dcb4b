// The note that follows a call.
ghost use Rattle.std.specs.Prelude.{◌≡◌, ◌≤◌, length};
ghost use Rattle.notation.specs.Short.{filled};
ghost use Rattle.notation.specs.Reading.{bracketed, given, is_printable};

use crate::front::after;
use record::NOTE_LENGTH;

// What stands for the note where none is given.
const NO_NOTE: [u8; NOTE_LENGTH] = *b"--------";

fn is_printable(bytes: &[u8]) -> bool
    ensures { result ≡ is_printable bytes.now }
{
    bytes.iter().all(|b| (b' '..=b'~').contains(b))
}

// The note in brackets, and nothing more.
#[tactic(auto, unfolding(crate::specs::Reading::bracketed))]
pub(crate) fn bracketed(text: &[u8]) -> Option<[u8; NOTE_LENGTH]>
    ensures { result ≡ bracketed text.now }
{
    let (note, rest) = after(text, b" [")?.split_first_chunk()?;
    if after(rest, b"]")?.is_empty() && is_printable(note) {
        Some(*note)
    } else {
        None
    }
}

// A note from eight bytes or fewer, and spaces.
fn filled(bytes: &[u8]) -> [u8; NOTE_LENGTH]
    requires { length bytes.now ≤ NOTE_LENGTH }
    ensures { result ≡ filled bytes.now }
{
    let mut note = [b' '; NOTE_LENGTH];
    note[..bytes.len()].copy_from_slice(bytes);
    note
}

// The note behind a space, in eight bytes or fewer, or none.
#[tactic(auto, unfolding(crate::specs::Reading::given))]
pub(crate) fn given(text: &[u8]) -> Option<[u8; NOTE_LENGTH]>
    ensures { result ≡ given text.now }
{
    if text.is_empty() {
        return Some(NO_NOTE);
    }
    let bytes = after(text, b" ")?;
    if bytes.len() <= NOTE_LENGTH && is_printable(bytes) {
        Some(filled(bytes))
    } else {
        None
    }
}
