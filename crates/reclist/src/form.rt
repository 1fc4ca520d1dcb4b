// How a recording is listed.

// In which of two forms.
#[derive(Clone, Copy, PartialEq, Eq, Debug)]
pub(crate) enum Form {
    // Each event by the number of its record, then why no more is listed, and what it adds up to.
    Numbered,
    // The words of each event alone, as `recmake` reads them.
    Plain,
}
