// A line as it is made. No `Display` with `write!`: a contract of std says no more of it than what an Ok has written, and a line is
// always made.
ghost use Rattle.std.specs.Prelude.{◌≡◌, ℕ, ◌+◌, ◌<◌, ◌≤◌, List, [], ◌++◌, IfOk, Some, codes, length, take};
ghost use Rattle.record.specs.Layout.{contents};
ghost use Rattle.record.specs.Lines.{fault_text, head_text, line_text, lining, newline, refusal_text, result_text, sent_text, turn_text};
ghost use Rattle.record.specs.Putting.{Appends};
ghost use Rattle.record.specs.Writing.{after as buffer_after};

use crate::event::Event;
use crate::layout::{LINE, NOTE_LENGTH};
use answer::{Answer, Refusal, Sent, Turn};
use arrayvec::ArrayVec;
use itoa::{Buffer, Integer};
use std::marker::Model;

/// A line of text, the newline at its end included, in memory of its own: nothing of it is on the heap.
// What has no room is left out, and no line is so long.
#[derive(Drop)]
pub struct LineText(ArrayVec<u8, LINE>);

impl Model for LineText {
    ghost Value = { List ℕ };

    ghost view = { λ t. t.0.items };
}

impl LineText {
    /// The line of an event, by the number of its record, and of what the cell answered.
    pub fn of_event(number: u64, event: Event, res: Result<Answer, Refusal>) -> LineText
        ensures text { result ≡ line_text number (contents event.entry) res }
        ensures short { length (line_text number (contents event.entry) res) < LINE }
    {
        let mut text = LineText::new();
        text.push_head(number, u8::from(event.letter()), res);
        text.push_note(event.note());
        text
    }

    /// The line of a record, by its number, in which no event was read.
    pub fn of_fault(number: u64, why: Refusal) -> LineText
        ensures text { result ≡ fault_text number why }
        ensures short { length (fault_text number why) < LINE }
    {
        let mut text = LineText::new();
        text.push_head(number, b'?', Err(why));
        text.push(b"\n");
        text
    }

    /// The bytes of the line.
    pub fn bytes(&self) -> &[u8]
        ensures { result.now ≡ self.now }
    {
        &self.0
    }

    // Into the front of a buffer that has room for the longest line; the text's length.
    pub(crate) fn store(&self, out: &mut [u8]) -> Result<usize, Refusal>
        ensures answer { result ≡ lining self.now out.old }
        ensures after { out.new ≡ buffer_after result self.now out.old }
        ensures short { length self.now < LINE → IfOk result (λ n. n < LINE) }
    {
        if out.len() < LINE {
            return Err(Refusal::BufferTooShort);
        }
        out[..self.0.len()].copy_from_slice(&self.0);
        Ok(self.0.len())
    }

    fn new() -> LineText
        ensures { result ≡ [] }
    {
        LineText(ArrayVec::new())
    }

    fn push(&mut self, more: &[u8])
        ensures { Appends self.old more.now self.new }
    {
        let _ = self.0.try_extend_from_slice(more);
    }

    fn push_number<N: Integer>(&mut self, n: N)
        ensures text { Appends self.old (N.text n) self.new }
        ensures short { length (N.text n) ≤ N.MAX_STR_LEN }
    {
        self.push(Buffer::new().format(n).as_bytes());
    }

    fn push_frame(&mut self, frame: Sent)
        ensures text { Appends self.old (sent_text (Some frame)) self.new }
        ensures short { length (sent_text (Some frame)) ≤ 14 }
    {
        self.push_number(frame.sender);
        self.push(b"/");
        self.push_number(frame.tag);
    }

    fn push_sent(&mut self, sent: Option<Sent>)
        ensures text { Appends self.old (sent_text sent) self.new }
        ensures short { length (sent_text sent) ≤ 14 }
    {
        match sent {
            None => self.push(b"-/-"),
            Some(frame) => self.push_frame(frame),
        }
    }

    fn push_turn(&mut self, turn: Turn)
        ensures text { Appends self.old (turn_text turn) self.new }
        ensures short { length (turn_text turn) ≤ 26 }
    {
        self.push_number(turn.chosen);
        self.push(b"/");
        self.push_sent(turn.sent);
        self.push(b"/");
        self.push_number(turn.length);
        self.push(&[b'/', u8::from(turn.kind)]);
    }

    fn push_refusal(&mut self, why: Refusal)
        ensures text { Appends self.old (refusal_text why) self.new }
        ensures short { length (refusal_text why) ≤ 4 }
    {
        self.push(b"E");
        self.push_number(why.number());
    }

    fn push_result(&mut self, res: Result<Answer, Refusal>)
        ensures text { Appends self.old (result_text res) self.new }
        ensures short { length (result_text res) ≤ 26 }
    {
        match res {
            Ok(Answer::Done) => self.push(b"ok"),
            Ok(Answer::Turn(turn)) => self.push_turn(turn),
            Err(why) => self.push_refusal(why),
        }
    }

    // Number, letter and result. The letter is a byte: where no event was read it is `?`, which is no letter.
    fn push_head(&mut self, number: u64, letter: u8, res: Result<Answer, Refusal>)
        ensures text { Appends self.old (head_text number letter res) self.new }
        ensures short { length (head_text number letter res) ≤ 49 }
    {
        self.push_number(number);
        self.push(&[b' ', letter, b' ']);
        self.push_result(res);
    }

    // A space, the note's first eight bytes and a newline.
    fn push_note(&mut self, note: &[u8])
        ensures text { Appends self.old (codes " " ++ (take NOTE_LENGTH note.now ++ newline)) self.new }
        ensures short { length (codes " " ++ (take NOTE_LENGTH note.now ++ newline)) ≤ NOTE_LENGTH + 2 }
    {
        self.push(b" ");
        self.push(&note[..note.len().min(NOTE_LENGTH)]);
        self.push(b"\n");
    }
}
