// What C reads an answer from. Kinds, layers and flags are numbers here, since C may have left any
// byte there before the call.
use answer::{Answer, Fault, Layer, Refusal, Sent, Turn};
use cell::Standing;
use queue::Frame;
use std::mem::size_of;

/// What an accepted turn answers; tag and sender are 0 where nobody sends.
#[repr(C)]
#[derive(Clone, Copy, PartialEq, Eq, Debug, Default)]
pub struct TurnOut {
    /// of the frame that left
    pub tag: u32,
    /// the bytes that the turn took
    pub length: u16,
    /// the place whose turn it was
    pub chosen: u8,
    /// 1 if a frame left
    pub sent: u8,
    /// the place that sent it
    pub sender: u8,
    /// by its letter
    pub kind: u8,
}

impl From<Turn> for TurnOut {
    ghost use Rattle.std.specs.Prelude.{◌≡◌};
    ghost use Rattle.base_unit.specs.Outs.{turn_out};

    ghost from_gives = { λ turn out. out ≡ turn_out turn };

    fn from(turn: Turn) -> TurnOut {
        let silent = TurnOut {
            length: turn.length,
            chosen: turn.chosen,
            kind: u8::from(turn.kind),
            ..TurnOut::default()
        };
        match turn.sent {
            None => silent,
            Some(Sent { sender, tag }) => TurnOut {
                tag,
                sent: 1,
                sender,
                ..silent
            },
        }
    }
}

/// What became of a record.
#[repr(C)]
#[derive(Clone, Copy, PartialEq, Eq, Debug, Default)]
pub struct Fed {
    /// the bytes of its line; 0 where the input has ended
    pub line: usize,
    /// the byte at fault; 0 where none is
    pub byte: usize,
    /// the number of the refusal that the line tells of; 0 where nobody refused
    pub refusal: u8,
    /// who refused: 0 the record, 1 the cell; 0 where nobody did
    pub layer: u8,
    /// 1 if the player must stop here
    pub stop: u8,
}

// Of a call: whatever the cell answers, the player goes on.
impl From<Result<Answer, Refusal>> for Fed {
    ghost use Rattle.std.specs.Prelude.{◌≡◌};
    ghost use Rattle.base_unit.specs.Feed.{fed_of};

    ghost from_gives = { λ res fed. fed ≡ fed_of 0 res };

    fn from(res: Result<Answer, Refusal>) -> Fed {
        match res {
            Ok(_) => Fed::default(),
            Err(why) => Fed {
                refusal: why.number(),
                layer: Layer::Cell as u8,
                ..Fed::default()
            },
        }
    }
}

// Of a record in which no event was read: the player stops.
impl From<Fault> for Fed {
    ghost use Rattle.std.specs.Prelude.{◌≡◌};
    ghost use Rattle.base_unit.specs.Feed.{fed_fault};

    ghost from_gives = { λ fault fed. fed ≡ fed_fault 0 fault };

    fn from(fault: Fault) -> Fed {
        Fed {
            line: 0,
            byte: fault.byte,
            refusal: fault.refusal.number(),
            layer: fault.layer as u8,
            stop: 1,
        }
    }
}

/// How the session of an open place stands.
#[repr(C)]
#[derive(Clone, Copy, PartialEq, Eq, Debug, Default)]
pub struct StandingOut {
    pub virtual_time: u64,
    /// the bytes that it is owed; below 0, what it has had too much
    pub lag: i64,
    /// in quarters of a charge
    pub allowance: i64,
    /// how many frames wait
    pub waiting: usize,
    /// booked, in units of the link's 720,720
    pub rate: u32,
    /// of a byte, in virtual time
    pub price: u32,
    /// 1 if its channel is good
    pub good: u8,
    /// 1 if a frame waits or it leads
    pub active: u8,
}

impl From<Standing> for StandingOut {
    ghost use Rattle.std.specs.Prelude.{◌≡◌};
    ghost use Rattle.base_unit.specs.Outs.{standing_out};

    ghost from_gives = { λ standing out. out ≡ standing_out standing };

    fn from(s: Standing) -> StandingOut {
        StandingOut {
            virtual_time: s.virtual_time,
            lag: s.lag,
            allowance: s.allowance,
            waiting: s.waiting,
            rate: s.rate,
            price: s.price,
            good: u8::from(s.good),
            active: u8::from(s.active),
        }
    }
}

/// A frame that waits; tag and length are 0 where there is none.
#[repr(C)]
#[derive(Clone, Copy, PartialEq, Eq, Debug, Default)]
pub struct FrameOut {
    pub tag: u32,
    /// its bytes
    pub length: u16,
    /// 1 if there is such a frame
    pub there: u8,
}

impl From<Option<Frame>> for FrameOut {
    ghost use Rattle.std.specs.Prelude.{◌≡◌};
    ghost use Rattle.base_unit.specs.Outs.{frame_out};

    ghost from_gives = { λ frame out. out ≡ frame_out frame };

    fn from(frame: Option<Frame>) -> FrameOut {
        match frame {
            None => FrameOut::default(),
            Some(Frame { tag, length }) => FrameOut {
                tag,
                length,
                there: 1,
            },
        }
    }
}

// The bytes of each, as C lays them out.
const _: () = prove!(size_of::<TurnOut>() == 12);

const _: () = prove!(size_of::<Fed>() == 24);

const _: () = prove!(size_of::<StandingOut>() == 48);

const _: () = prove!(size_of::<FrameOut>() == 8);
