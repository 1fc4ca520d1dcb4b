// Reading a line.
ghost use Rattle.std.specs.Prelude.{◌≡◌, Ok, Some, IfOk, IfSome};
ghost use Rattle.notation.specs.Reading.{bare, event_in, is_comment, reading};
ghost use Rattle.notation.specs.Texts.{IsRecordable, Says};

use crate::calls::{call_in_words, short_call};
use crate::front::{after, number};
use crate::misread::Misread;
use crate::note::{bracketed, given};
use crate::noted::NotedCall;

fn is_comment(line: &[u8]) -> bool
    ensures { result ≡ is_comment line.now }
{
    matches!(line, [] | [b'#', ..])
}

// A line without the number of its record, where it has one.
#[tactic(auto, unfolding(crate::specs::Reading::bare))]
fn bare(line: &[u8]) -> &[u8]
    ensures { result.now ≡ bare line.now }
{
    number(line)
        .and_then(|(_, rest)| after(rest, b": "))
        .unwrap_or(line)
}

// The event that all of a text is, in words or in the short form.
#[tactic(auto, unfolding(crate::specs::Reading::event_in))]
fn event(text: &[u8]) -> Result<NotedCall, Misread>
    ensures { result ≡ event_in text.now }
{
    if let Some((call, rest)) = call_in_words(text) {
        let note = bracketed(rest).ok_or(Misread::NoNote)?;
        return Ok(NotedCall { call, note });
    }
    let (call, rest) = short_call(text).ok_or(Misread::NoCall)?;
    let note = given(rest).ok_or(Misread::NoNote)?;
    Ok(NotedCall { call, note })
}

/// What a line says, without the newline at its end: an event, in words or in the short form, or
/// nothing where the line is empty or begins with `#`. The number of a record before it, as in
/// `12: a turn [--------]`, is not looked at. Numbers are decimal, with no zeros before them.
#[tactic(auto, unfolding(crate::specs::Reading::reading))]
pub fn read(line: &[u8]) -> Result<Option<NotedCall>, Misread>
    ensures answer { result ≡ reading line.now }
    ensures reads_back { (event : NotedCall) → IsRecordable event → Says line.now event
        → result ≡ Ok (Some event) }
    ensures says { IfOk result (λ found.
        IfSome found (λ event. IsRecordable event × Says line.now event)) }
{
    if is_comment(line) {
        return Ok(None);
    }
    event(bare(line)).map(Some)
}
