// Every refusal, by what it says.
ghost use Rattle.std.specs.Prelude.{◌≡◌, Some};
ghost use Rattle.answer.specs.Names.{refusal_message, refusal_words};
ghost use Rattle.answer.specs.Numbers.{number_of};

use std::error::Error;
use std::fmt;

/// Why a call was refused. A refused call changes nothing; where several conditions hold, the one with the lowest
/// number is given.
#[derive(Clone, Copy, PartialEq, Eq, Debug)]
pub enum Refusal {
    /// The input ends inside a record.
    TruncatedRecord = 1,
    /// The first byte of a record is no letter.
    UnknownLetter = 2,
    /// A byte that the record's letter leaves unused.
    UnusedByteNotZero = 3,
    /// A note that is not eight characters from space to `~`.
    NoteNotPrintable = 4,
    /// There is no such place.
    PlaceTooHigh = 5,
    /// Opening a place that is open.
    PlaceOpen = 6,
    /// A call other than opening, on a place that is not open.
    PlaceNotOpen = 7,
    /// The rate does not divide the link.
    RateNotInTariff = 8,
    /// The rates booked would pass the link.
    LinkOverbooked = 9,
    /// Closing an active session.
    SessionActive = 10,
    /// Closing a session whose virtual time is above the mark.
    AheadOfMark = 11,
    /// A frame with no bytes, or longer than the longest.
    LengthOutOfRange = 12,
    /// As many frames wait as have room.
    QueueFull = 13,
    /// A turn while no session is active.
    NoneActive = 14,
    /// No more turns are accepted.
    TurnsUsedUp = 15,
    /// A cell with a keep above four quarters.
    KeepTooHigh = 16,
    /// The buffer has no room for a line, or for a record.
    BufferTooShort = 17,
}

impl Refusal {
    /// The number by which crews, recordings and documents know it, 1 to 17.
    pub fn number(self) -> u8
        ensures { result ≡ number_of self }
    {
        self as u8
    }

    /// The condition on which it is given, in words.
    pub fn words(self) -> &'static str
        ensures { result.now ≡ refusal_words self }
    {
        match self {
            Refusal::TruncatedRecord => "the input ends inside a record",
            Refusal::UnknownLetter => "byte 0 is none of O, C, A, G, B, T",
            Refusal::UnusedByteNotZero => "a byte that this letter leaves unused isn't zero",
            Refusal::NoteNotPrintable =>
                "a note byte outside 32 to 126; on writing, a note that isn't eight such bytes",
            Refusal::PlaceTooHigh => "a place above 63",
            Refusal::PlaceOpen => "opening a place that is open",
            Refusal::PlaceNotOpen => "a call other than opening on a place that isn't open",
            Refusal::RateNotInTariff => "a rate that doesn't divide 720,720 (0 too)",
            Refusal::LinkOverbooked => "the booked total would pass 720,720",
            Refusal::SessionActive => "closing an active session",
            Refusal::AheadOfMark => "closing a session whose virtual time is above the mark",
            Refusal::LengthOutOfRange => "a frame of 0 bytes, or of more than 1,536",
            Refusal::QueueFull => "32 frames wait already",
            Refusal::NoneActive => "a turn while no session is active",
            Refusal::TurnsUsedUp => "2,000,000,000 turns were accepted already",
            Refusal::KeepTooHigh => "a cell with a keep above 4",
            Refusal::BufferTooShort =>
                "a line buffer under 64 bytes; on writing, a record buffer under 16",
        }
    }
}

/// Its number and its words, as `refusal 14: a turn while no session is active`.
impl fmt::Display for Refusal {
    ghost output = { λ why. Some (refusal_message why) };

    fn fmt<W: fmt::Write>(&self, f: &mut fmt::Formatter<W>) -> fmt::Result {
        write!(f, "refusal {}: {}", self.number(), self.words())
    }
}

impl Error for Refusal {}
