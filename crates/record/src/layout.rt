// How many bytes a record and its line have, and where the parts of a record begin.

pub(crate) const PLACE: usize = 1;

pub(crate) const LENGTH: usize = 2;

pub(crate) const VALUE: usize = 4;

pub(crate) const NOTE: usize = 8;

/// How many bytes the note of a record has.
pub const NOTE_LENGTH: usize = 8;

/// How many bytes a record has.
pub const RECORD: usize = NOTE + NOTE_LENGTH;

/// The room, in bytes, that the longest line has.
pub const LINE: usize = 64;
