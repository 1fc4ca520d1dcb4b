// Writing: every letter, both refusals, and what is left of the buffer.
use super::samples::{SAID, fault, into_first};
use answer::{Fault, Refusal};
use record::{Event, read, write};
use std::process::Abort;
use std::test::Fail;

fn writes(rt: &impl Abort, event: &Event, bytes: &[u8; 16]) {
    assert_eq!(rt; into_first(16, |out| write(event, out)), (Ok(()), *bytes));
}

// The refusal of a note.
fn bad_note() -> Fault {
    fault(Refusal::NoteNotPrintable, 0, 8)
}

// An event whose note alone says whether it is written.
fn writes_if(rt: &impl Abort, good: bool, event: &Event) {
    let (result, out) = into_first(16, |out| write(event, out));
    if good {
        assert_eq!(rt; result, Ok(()));
    } else {
        assert_eq!(rt; result, Err(bad_note()));
        assert_eq!(rt; out, *b"................");
    }
}

#[test]
fn every_letter_is_written(rt: HostRuntime) {
    for (record, event) in &SAID {
        writes(&rt, event, record);
    }
}

#[test]
fn numbers_are_little_endian(rt: HostRuntime) {
    let arrive = Event::Arrive {
        place: 9,
        length: 0x0102,
        tag: 0x0304_0506,
        note: b"--------",
    };
    writes(&rt, &arrive, b"A\x09\x02\x01\x06\x05\x04\x03--------");
}

#[test]
fn what_was_read_is_written_back(rt: HostRuntime) -> Result<(), Fail> {
    for (record, _) in &SAID {
        let (event, _) = read(record, 1)?.ok_or("no record")?;
        writes(&rt, &event, record);
    }
    Ok(())
}

#[test]
fn a_longer_buffer_keeps_the_rest(rt: HostRuntime) {
    let turn = Event::Turn { note: b"--------" };
    assert_eq!(rt;
        into_first(20, |out| write(&turn, out)),
        (Ok(()), *b"T\0\0\0\0\0\0\0--------....")
    );
}

#[test]
fn a_shorter_buffer_is_refused_and_kept(rt: HostRuntime) {
    let turn = Event::Turn { note: b"--------" };
    let too_short = fault(Refusal::BufferTooShort, 0, 0);
    assert_eq!(rt; too_short.refusal.number(), 17);
    // the length itself is what is tried
    for n in 0..16 {
        assert_eq!(rt;
            into_first(n, |out| write(&turn, out)),
            (Err(too_short), *b"................")
        );
    }
}

#[test]
fn a_note_of_another_length_is_refused(rt: HostRuntime) {
    let text = b"----------------";
    // the length itself is what is tried
    for n in 0..17 {
        let event = Event::Good {
            place: 1,
            note: &text[..n],
        };
        writes_if(&rt, n == 8, &event);
    }
}

#[test]
fn a_note_that_is_not_printable_is_refused(rt: HostRuntime) {
    // one byte of the note after the other is the wrong one
    for at in 0..8 {
        for (b, good) in [
            (0, false),
            (31, false),
            (32, true),
            (126, true),
            (127, false),
            (255, false),
        ] {
            let mut note = [b'-'; 8];
            note[at] = b;
            let event = Event::Bad {
                place: 1,
                note: &note,
            };
            writes_if(&rt, good, &event);
        }
    }
}

#[test]
fn the_note_is_looked_at_before_the_buffer(rt: HostRuntime) {
    let event = Event::Turn { note: b"short" };
    let mut out = [b'.'; 15];
    assert_eq!(rt; write(&event, &mut out), Err(bad_note()));
}
