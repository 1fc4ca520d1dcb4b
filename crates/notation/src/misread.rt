// Why a line is not read.
use std::error::Error;
use std::fmt;

/// Why a line is no event.
#[derive(Clone, Copy, PartialEq, Eq, Debug)]
pub enum Misread {
    /// The line does not begin with a call, in words or in the short form, whose numbers a record can
    /// hold.
    NoCall,
    /// What follows the call is no note.
    NoNote,
}

/// What is wanted there.
impl fmt::Display for Misread {
    ghost use Rattle.std.specs.Prelude.{Some};
    ghost use Rattle.notation.specs.Misreads.{misread_words};

    ghost output = { λ why. Some (misread_words why) };

    fn fmt<W: fmt::Write>(&self, f: &mut fmt::Formatter<W>) -> fmt::Result {
        f.write_str(match self {
            Misread::NoCall =>
                "no call, neither in words, as `place 0 closes`, nor short, as `C 0`",
            Misread::NoNote =>
                "no note, neither eight printable bytes in brackets nor, behind `C 0`, eight at most",
        })
    }
}

impl Error for Misread {}
