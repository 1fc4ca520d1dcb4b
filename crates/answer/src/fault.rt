// A refusal with the place in a recording that brought it about.
ghost use Rattle.std.specs.Prelude.{Some};
ghost use Rattle.answer.specs.Names.{fault_message, layer_word};

use crate::refusal::Refusal;
use std::error::Error;
use std::fmt;

/// Who refused: the reader and writer of records, or the cell.
#[derive(Clone, Copy, PartialEq, Eq, Debug)]
pub enum Layer {
    /// The reader and writer of records.
    Record = 0,
    /// The cell that a record's call was made on.
    Cell = 1,
}

impl fmt::Display for Layer {
    ghost output = { λ layer. Some (layer_word layer) };

    fn fmt<W: fmt::Write>(&self, f: &mut fmt::Formatter<W>) -> fmt::Result {
        f.write_str(match self {
            Layer::Record => "record",
            Layer::Cell => "cell",
        })
    }
}

/// A refusal through a record: who gave it, and where in the recording. Zeros and no `Option`: both numbers are shown as
/// they are, and C is told the byte.
#[derive(Clone, Copy, PartialEq, Eq, Debug)]
pub struct Fault {
    /// Why.
    pub refusal: Refusal,
    /// Who refused.
    pub layer: Layer,
    /// The record's number in the recording, counted from 1; 0 on writing.
    pub record: u64,
    /// The byte of the record; 0 where none is at fault. Of a truncated record, how many bytes are there.
    pub byte: usize,
}

/// Its four parts, as `refusal 7: .., layer cell, record 4, byte 0`.
impl fmt::Display for Fault {
    ghost output = { λ fault. Some (fault_message fault) };

    fn fmt<W: fmt::Write>(&self, f: &mut fmt::Formatter<W>) -> fmt::Result {
        let Fault {
            refusal,
            layer,
            record,
            byte,
        } = *self;
        write!(f, "{refusal}, layer {layer}, record {record}, byte {byte}")
    }
}

impl Error for Fault {}
