// A fault in words.
ghost use Rattle.std.specs.Prelude.{Some};
ghost use Rattle.reclist.specs.Words.{stopped_words};

use answer::Fault;
use std::fmt;

// Why nothing more is listed.
#[derive(Drop)]
pub(crate) struct Stopped(pub Fault);

impl fmt::Display for Stopped {
    ghost output = { λ stopped. Some (stopped_words stopped.0) };

    fn fmt<W: fmt::Write>(&self, f: &mut fmt::Formatter<W>) -> fmt::Result {
        let Fault {
            refusal,
            layer,
            record,
            byte,
        } = self.0;
        let number = refusal.number();
        write!(
            f,
            "refusal {number}, layer {layer}, record {record}, byte {byte}"
        )
    }
}
