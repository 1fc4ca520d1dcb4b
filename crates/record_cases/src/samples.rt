// One good record of each letter, a fault of a record, and what a call leaves in a buffer.
ghost use Rattle.std.specs.Prelude.{◌≤◌};

use answer::{Fault, Layer, Refusal};
use record::Event;

// rate 720720 at place 63
pub const OPEN: [u8; 16] = [
    b'O', 63, 0, 0, 0x50, 0xff, 0x0a, 0, b'h', b'a', b'l', b'l', b' ', b'7', b' ', b'E',
];

pub const CLOSE: [u8; 16] = [
    b'C', 255, 0, 0, 0, 0, 0, 0, b'c', b'l', b'o', b's', b'e', b'd', b'.', b'.',
];

// a frame of 1536 bytes, tag 4294967295, at place 5
pub const ARRIVE: [u8; 16] = [
    b'A', 5, 0x00, 0x06, 0xff, 0xff, 0xff, 0xff, b'c', b'a', b'p', b't', b'i', b'o', b'n', b' ',
];

pub const GOOD: [u8; 16] = [
    b'G', 0, 0, 0, 0, 0, 0, 0, b' ', b' ', b' ', b' ', b' ', b' ', b' ', b' ',
];

pub const BAD: [u8; 16] = [
    b'B', 1, 0, 0, 0, 0, 0, 0, b'~', b'~', b'~', b'~', b'~', b'~', b'~', b'~',
];

pub const TURN: [u8; 16] = [
    b'T', 0, 0, 0, 0, 0, 0, 0, b'-', b'-', b'-', b'-', b'-', b'-', b'-', b'-',
];

// Each record with the event that it says.
pub const SAID: [([u8; 16], Event<'static>); 6] = [
    (
        OPEN,
        Event::Open {
            place: 63,
            rate: 720_720,
            note: b"hall 7 E",
        },
    ),
    (
        CLOSE,
        Event::Close {
            place: 255,
            note: b"closed..",
        },
    ),
    (
        ARRIVE,
        Event::Arrive {
            place: 5,
            length: 1536,
            tag: 4_294_967_295,
            note: b"caption ",
        },
    ),
    (
        GOOD,
        Event::Good {
            place: 0,
            note: b"        ",
        },
    ),
    (
        BAD,
        Event::Bad {
            place: 1,
            note: b"~~~~~~~~",
        },
    ),
    (TURN, Event::Turn { note: b"--------" }),
];

// A fault of the record layer, made here: what is expected does not come from the code that is tested.
pub(crate) fn fault(refusal: Refusal, record: u64, byte: usize) -> Fault {
    Fault {
        refusal,
        layer: Layer::Record,
        record,
        byte,
    }
}

// What a call answers that has the first n of N bytes to write into, and what it leaves in all of them.
pub(crate) fn into_first<const N: usize, R, F: FnOnce(&mut [u8]) -> R>(
    n: usize,
    write: F,
) -> (R, [u8; N])
    requires room { n ≤ N }
    requires call { F.IsAlwaysCallable write }
{
    let mut out = [b'.'; N];
    (write(&mut out[..n]), out)
}
