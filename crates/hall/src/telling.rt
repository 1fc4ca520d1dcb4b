// What is printed of a recording.
ghost use Rattle.std.specs.Prelude.{◌≡◌};

/// How each record is told.
#[derive(Clone, Copy, PartialEq, Eq, Debug)]
pub enum Style {
    /// In a line of letters and numbers.
    Lines,
    /// In a line of words.
    Words,
    /// By no line, but all are summed up at the end.
    Summary,
}

/// What is printed of a recording.
#[derive(Clone, Copy, PartialEq, Eq, Debug)]
pub struct Telling {
    /// How each record is told.
    pub style: Style,
    /// After every so many records, and last, the state of the cell is printed.
    pub states: Option<u64>,
}

impl Telling {
    ghost use Rattle.hall.specs.Telling.{is_due};

    /// Whether a state is due after this record.
    pub fn is_due(&self, number: u64) -> bool
        ensures { result ≡ is_due self.now.states number }
    {
        match self.states {
            Some(every) => every != 0 && number % every == 0,
            None => false,
        }
    }
}
