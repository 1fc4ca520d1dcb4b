// A ring of frames in fixed memory, from the first that is held onward.
#![tactic(auto, using(crate::proofs::Rings::rings), unfolding(crate::specs::Ring::held))]

ghost use Rattle.std.specs.Prelude.{◌<◌, ◌≤◌};
ghost use Rattle.queue.specs.declared.TheConstants.{ROOM};

use super::ROOM;
use super::frame::Frame;

// Laid out for C.
#[repr(C)]
#[derive(Clone, Copy, Debug)]
pub struct Ring {
    frames: [Frame; ROOM],
    head: usize,
    count: usize,
    ghost inside: { (head < ROOM) × (count ≤ ROOM) },
}

// Whoever calls sees to it that there is room, or a frame.
impl Ring {
    ghost use Rattle.std.specs.Prelude.{◌≡◌, ◌+◌, ◌%◌, [], ◌∷◌, ◌++◌, length, Some};
    ghost use Rattle.std.specs.List.{slice_get};
    ghost use Rattle.queue.specs.Ring.{held};

    pub(crate) fn new() -> Ring
        ensures { held result ≡ [] }
    {
        Ring {
            frames: [Frame::default(); ROOM],
            head: 0,
            count: 0,
        }
    }

    // Where the i-th frame stands, counted from the head on.
    fn slot(&self, i: usize) -> usize
        requires { i ≤ ROOM }
        ensures { result ≡ (self.now.head + i) % ROOM }
    {
        (self.head + i) % ROOM
    }

    pub(crate) fn count(&self) -> usize
        ensures { result ≡ length (held self.now) }
    {
        self.count
    }

    pub(crate) fn at(&self, i: usize) -> Frame
        requires { i < length (held self.now) }
        ensures { slice_get (held self.now) i ≡ Some result }
    {
        self.frames[self.slot(i)]
    }

    pub(crate) fn put(&mut self, frame: Frame)
        requires { length (held self.old) < ROOM }
        ensures { held self.new ≡ held self.old ++ frame ∷ [] }
    {
        let slot = self.slot(self.count);
        self.frames[slot] = frame;
        self.count += 1;
    }

    pub(crate) fn take(&mut self) -> Frame
        requires { 0 < length (held self.old) }
        ensures { held self.old ≡ result ∷ held self.new }
    {
        let frame = self.frames[self.head];
        self.head = self.slot(1);
        self.count -= 1;
        frame
    }
}
