// The input that a word names.
ghost use Rattle.std.specs.Prelude.{◌≡◌, option_map};
ghost use Rattle.std.specs.Io.KnownBytes.{Keeps};
ghost use Rattle.cli.specs.Sources.{source_as, source_of, remaining_of};

use std::io;
use std::io::Read;

/// Where a program reads.
#[derive(Clone, Copy, Debug, PartialEq, Eq)]
pub enum Source<'a> {
    /// The standard input.
    Standard,
    /// The file of this name.
    File(&'a str),
}

impl<'a> Source<'a> {
    /// What the word names: without a word, and for `-`, the standard input.
    pub fn named(word: Option<&'a str>) -> Source<'a>
        ensures { source_as result ≡ source_of (option_map (λ w. w.now) word.entry) }
    {
        match word {
            Some(name) if name != "-" => Source::File(name),
            _ => Source::Standard,
        }
    }
}

/// The standard input, or a file that was opened.
#[derive(Drop)]
pub enum Input<S, F> {
    Standard(S),
    File(F),
}

impl<S: Read, F: Read> Read for Input<S, F> {
    ghost remaining = { remaining_of S.remaining F.remaining };

    fn read(&mut self, buf: &mut [u8]) -> io::Result<usize> {
        match self {
            Input::Standard(stream) => stream.read(buf),
            Input::File(file) => file.read(buf),
        }
    }
}
