// What a cell's turns add up to.
use crate::counting::plus;
use answer::{Answer, Kind, Refusal, Turn};

/// A cell's turns by kind, and the bytes that were sent in them.
#[derive(Clone, Copy, PartialEq, Eq, Debug)]
pub struct Turns {
    /// the chosen session sent in its own turn
    pub normal: u64,
    /// a lagging session was paid back
    pub credit: u64,
    /// a leading session kept its turn
    pub kept: u64,
    /// a session that was owed nothing used another's turn
    pub extra: u64,
    /// nobody could send
    pub idle: u64,
    /// that somebody sent
    pub bytes: u64,
}

impl Turns {
    ghost use Rattle.std.specs.Prelude.{◌≡◌};
    ghost use Rattle.summary.specs.Adding.{none, one_more, turns_after};

    /// No turn yet.
    pub fn new() -> Turns
        ensures { result ≡ none }
    {
        Turns {
            normal: 0,
            credit: 0,
            kept: 0,
            extra: 0,
            idle: 0,
            bytes: 0,
        }
    }

    fn with_kind(self, kind: Kind) -> Turns
        ensures { result ≡ one_more kind self }
    {
        let mut turns = self;
        match kind {
            Kind::Normal => turns.normal = plus(self.normal, 1),
            Kind::Credit => turns.credit = plus(self.credit, 1),
            Kind::Kept => turns.kept = plus(self.kept, 1),
            Kind::Extra => turns.extra = plus(self.extra, 1),
            Kind::Idle => turns.idle = plus(self.idle, 1),
        }
        turns
    }

    /// With what the cell answered to one more event.
    pub fn after(self, result_of_call: Result<Answer, Refusal>) -> Turns
        ensures { result ≡ turns_after result_of_call self }
    {
        let Ok(
            Answer::Turn(
                Turn {
                    sent,
                    length,
                    kind,
                    ..
                },
            ),
        ) = result_of_call
        else {
            return self;
        };
        let turns = self.with_kind(kind);
        match sent {
            Some(_) => Turns {
                bytes: plus(turns.bytes, u64::from(length)),
                ..turns
            },
            None => turns,
        }
    }
}

impl Default for Turns {
    fn default() -> Turns {
        Turns::new()
    }
}
