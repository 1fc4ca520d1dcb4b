//! Frames, and the queue in which a session's frames wait.
#![tactic(auto)]

ghost use Rattle.std.specs.Prelude.{◌≡◌, [], length};
ghost use Rattle.std.specs.List.{slice_get};
ghost use Rattle.queue.specs.Fifo.{is_empty, front, rest, push_answer, pushed};
ghost use Rattle.queue.specs.Waiting.{waiting};

use answer::Refusal;

mod frame;
mod ring;

pub use frame::Frame;
use ring::Ring;

/// How many frames a queue has room for.
pub const ROOM: usize = 32;

/// Frames that wait, first in first out and at most [`ROOM`], in memory of its own that is laid out
/// for C.
#[repr(C)]
#[derive(Clone, Copy, Debug)]
pub struct Queue {
    ring: Ring,
}

impl Queue {
    /// A queue in which nothing waits.
    pub fn new() -> Queue
        ensures { waiting result ≡ [] }
    {
        Queue { ring: Ring::new() }
    }

    /// How many frames wait.
    pub fn len(&self) -> usize
        ensures { result ≡ length (waiting self.now) }
    {
        self.ring.count()
    }

    /// Whether no frame waits.
    pub fn is_empty(&self) -> bool
        ensures { result ≡ is_empty (waiting self.now) }
    {
        self.len() == 0
    }

    /// The frame that leaves after `i` others; none if no more than `i` wait.
    pub fn get(&self, i: usize) -> Option<Frame>
        ensures { result ≡ slice_get (waiting self.now) i }
    {
        (i < self.len()).then(|| self.ring.at(i))
    }

    /// Puts a frame behind those that wait; where [`ROOM`] wait it is refused, and nothing changes.
    pub fn push(&mut self, frame: Frame) -> Result<(), Refusal>
        ensures answer { result ≡ push_answer (waiting self.old) }
        ensures after { waiting self.new ≡ pushed (waiting self.old) frame }
    {
        if self.len() >= ROOM {
            return Err(Refusal::QueueFull);
        }
        self.ring.put(frame);
        Ok(())
    }

    /// Takes the frame that has waited longest; none if none waits.
    pub fn pop(&mut self) -> Option<Frame>
        ensures answer { result ≡ front (waiting self.old) }
        ensures after { waiting self.new ≡ rest (waiting self.old) }
    {
        // No `then`: its contract does not say what its closure leaves of the queue.
        if self.is_empty() {
            None
        } else {
            Some(self.ring.take())
        }
    }
}

impl Default for Queue {
    ghost is_default = { λ queue. waiting queue ≡ [] };

    fn default() -> Queue {
        Queue::new()
    }
}
