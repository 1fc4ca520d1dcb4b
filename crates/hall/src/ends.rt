// How the play of a recording ends.
use answer::Fault;

/// How the play of a recording ended: the records that were read, the faulty one among them, and the fault.
#[derive(Clone, Copy, PartialEq, Eq, Debug)]
pub struct End {
    /// The records that were read.
    pub records: u64,
    /// Why the last of them was not played.
    pub fault: Option<Fault>,
}
