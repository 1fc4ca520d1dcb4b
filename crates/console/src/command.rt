// What a line asks for.
ghost use Rattle.std.specs.Prelude.{◌≡◌, ◌^◌};
ghost use Rattle.std.specs.Str.{bytes_eq};
ghost use Rattle.console.specs.Commands.{alone, command_of, list_named, number_in, of_number, of_place};
ghost use Rattle.console.specs.Commands.{place_in, reading, with_three, with_two};
ghost use Rattle.console.specs.Words.{words_as};

use crate::words::{Words, first_word, number};
use chooser::ListKind;
use record::Call;
use std::error::Error;
use std::fmt;

/// A line that was understood.
#[derive(Clone, Copy, PartialEq, Eq, Debug)]
pub enum Command {
    /// A call on the cell.
    Call(Call),
    /// How the session of a place stands.
    Session { place: u8 },
    /// The frame that leaves a place after so many others.
    Frame { place: u8, index: u32 },
    /// The virtual time that the cell has come to.
    Mark,
    /// The rates of all open places together.
    Booked,
    /// How many turns were accepted.
    Turns,
    /// What a leading session keeps, in quarters.
    Keep,
    /// The service that the chooser counts for a place in one of its lists.
    Count { list: ListKind, place: u8 },
    /// What can be asked.
    Help,
    /// Nothing more is read.
    Quit,
}

/// A line that is neither a call nor a question.
#[derive(Clone, Copy, PartialEq, Eq, Debug)]
pub struct Unknown;

/// Where to look.
impl fmt::Display for Unknown {
    ghost use Rattle.std.specs.Prelude.{Some, codes};

    ghost output = { λ _. Some (codes "neither a call nor a question: `help` lists them") };

    fn fmt<W: fmt::Write>(&self, f: &mut fmt::Formatter<W>) -> fmt::Result {
        f.write_str("neither a call nor a question: `help` lists them")
    }
}

impl Error for Unknown {}

fn is(word: &[u8], name: &str) -> bool
    ensures { result ≡ bytes_eq word.now name.now }
{
    word == name.as_bytes()
}

fn place(word: &[u8]) -> Option<u8>
    ensures { result ≡ place_in word.now }
{
    u8::try_from(number(word)?).ok()
}

fn length(word: &[u8]) -> Option<u16>
    ensures { result ≡ number_in (2 ^ 16) word.now }
{
    u16::try_from(number(word)?).ok()
}

fn list(word: &[u8]) -> Option<ListKind>
    ensures { result ≡ list_named word.now }
{
    if is(word, "credit") {
        Some(ListKind::Credit)
    } else if is(word, "extra") {
        Some(ListKind::Extra)
    } else {
        None
    }
}

fn alone(verb: &[u8]) -> Option<Command>
    ensures { result ≡ alone verb.now }
{
    if is(verb, "turn") {
        Some(Command::Call(Call::Turn))
    } else if is(verb, "mark") {
        Some(Command::Mark)
    } else if is(verb, "booked") {
        Some(Command::Booked)
    } else if is(verb, "turns") {
        Some(Command::Turns)
    } else if is(verb, "keep") {
        Some(Command::Keep)
    } else if is(verb, "help") {
        Some(Command::Help)
    } else if is(verb, "quit") {
        Some(Command::Quit)
    } else {
        None
    }
}

fn of_place(verb: &[u8], place: u8) -> Option<Command>
    ensures { result ≡ of_place verb.now place }
{
    if is(verb, "close") {
        Some(Command::Call(Call::Close { place }))
    } else if is(verb, "good") {
        Some(Command::Call(Call::Good { place }))
    } else if is(verb, "bad") {
        Some(Command::Call(Call::Bad { place }))
    } else if is(verb, "session") {
        Some(Command::Session { place })
    } else {
        None
    }
}

fn of_number(verb: &[u8], place: u8, number: u32) -> Option<Command>
    ensures { result ≡ of_number verb.now place number }
{
    if is(verb, "open") {
        Some(Command::Call(Call::Open {
            place,
            rate: number,
        }))
    } else if is(verb, "frame") {
        Some(Command::Frame {
            place,
            index: number,
        })
    } else {
        None
    }
}

fn with_two(verb: &[u8], first: &[u8], second: &[u8]) -> Option<Command>
    ensures { result ≡ with_two verb.now first.now second.now }
{
    if is(verb, "count") {
        let list = list(first)?;
        return Some(Command::Count {
            list,
            place: place(second)?,
        });
    }
    of_number(verb, place(first)?, number(second)?)
}

fn with_three(verb: &[u8], first: &[u8], second: &[u8], third: &[u8]) -> Option<Command>
    ensures { result ≡ with_three verb.now first.now second.now third.now }
{
    if !is(verb, "arrive") {
        return None;
    }
    let (place, length) = (place(first)?, length(second)?);
    let tag = number(third)?;
    Some(Command::Call(Call::Arrive { place, length, tag }))
}

fn understood(words: Words<'_>) -> Option<Command>
    ensures { result ≡ command_of (words_as words.entry) }
{
    let Words {
        verb,
        first,
        second,
        third,
    } = words;
    match (first, second, third) {
        ([], _, _) => alone(verb),
        (_, [], _) => of_place(verb, place(first)?),
        (_, _, []) => with_two(verb, first, second),
        _ => with_three(verb, first, second, third),
    }
}

/// What a line asks for, and none where it is empty or a comment, which begins with `#`. A line is a verb and its numbers,
/// with spaces between them.
pub fn read(line: &[u8]) -> Result<Option<Command>, Unknown>
    ensures { result ≡ reading line.now }
{
    if matches!(first_word(line), [] | [b'#', ..]) {
        return Ok(None);
    }
    match Words::of(line).and_then(understood) {
        Some(command) => Ok(Some(command)),
        None => Err(Unknown),
    }
}
