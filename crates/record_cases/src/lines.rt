// Lines: every result and letter, the longest, and what is left of the buffer.
use super::samples::{ARRIVE, BAD, CLOSE, GOOD, OPEN, TURN, into_first};
use answer::{Answer, Kind, Refusal, Sent, Turn};
use record::{Event, Letter, fault_line, line, read};
use std::process::Abort;
use std::test::Fail;

// A call that writes this text to the front of a buffer of dots, and nothing else.
fn says<F: FnOnce(&mut [u8]) -> Result<usize, Refusal>>(rt: &impl Abort, write: F, text: &[u8])
    requires { F.IsAlwaysCallable write }
{
    let mut expected = [b'.'; 70];
    assert!(rt; text.len() < 64);
    expected[..text.len()].copy_from_slice(text);
    assert_eq!(rt; into_first(70, write), (Ok(text.len()), expected));
}

fn turn(chosen: u8, sent: Option<Sent>, length: u16, kind: Kind) -> Result<Answer, Refusal> {
    Ok(Answer::Turn(Turn {
        chosen,
        sent,
        length,
        kind,
    }))
}

#[test]
fn every_letter_has_its_line(rt: HostRuntime) -> Result<(), Fail> {
    for (record, text) in [
        (OPEN, b"1 O ok hall 7 E\n"),
        (CLOSE, b"1 C ok closed..\n"),
        (ARRIVE, b"1 A ok caption \n"),
        (GOOD, b"1 G ok         \n"),
        (BAD, b"1 B ok ~~~~~~~~\n"),
        (TURN, b"1 T ok --------\n"),
    ] {
        let (event, _) = read(&record, 1)?.ok_or("no record")?;
        says(&rt, |out| line(1, event, Ok(Answer::Done), out), text);
    }
    Ok(())
}

#[test]
fn every_kind_has_its_letter(rt: HostRuntime) {
    let event = Event::Turn { note: b"--------" };
    let sent = Some(Sent { sender: 1, tag: 3 });
    let turns: [(u64, Result<Answer, Refusal>, &[u8]); 5] = [
        (
            8,
            turn(0, sent, 101, Kind::Extra),
            b"8 T 0/1/3/101/x --------\n",
        ),
        (
            10,
            turn(1, sent, 50, Kind::Normal),
            b"10 T 1/1/3/50/n --------\n",
        ),
        (
            11,
            turn(1, sent, 100, Kind::Credit),
            b"11 T 1/1/3/100/c --------\n",
        ),
        (
            99,
            turn(63, sent, 1536, Kind::Kept),
            b"99 T 63/1/3/1536/k --------\n",
        ),
        (
            100,
            turn(9, None, 256, Kind::Idle),
            b"100 T 9/-/-/256/i --------\n",
        ),
    ];
    for (number, turn, text) in turns {
        says(&rt, |out| line(number, event, turn, out), text);
    }
}

#[test]
fn the_smallest_and_the_longest_line(rt: HostRuntime) {
    let event = Event::Turn { note: b"--------" };
    let least = Some(Sent { sender: 0, tag: 0 });
    let least = turn(0, least, 0, Kind::Normal);
    says(
        &rt,
        |out| line(0, event, least, out),
        b"0 T 0/0/0/0/n --------\n",
    );
    let most = Some(Sent {
        sender: 255,
        tag: 4_294_967_295,
    });
    let most = turn(255, most, 65535, Kind::Normal);
    let text = b"18446744073709551615 T 255/255/4294967295/65535/n --------\n";
    assert_eq!(rt; text.len(), 59);
    says(&rt, |out| line(u64::MAX, event, most, out), text);
}

#[test]
fn refusals_of_the_cell_go_by_number(rt: HostRuntime) {
    let event = Event::Close {
        place: 1,
        note: b"--------",
    };
    let refusals: [(Refusal, &[u8]); 12] = [
        (Refusal::PlaceTooHigh, b"2 C E5 --------\n"),
        (Refusal::PlaceOpen, b"2 C E6 --------\n"),
        (Refusal::PlaceNotOpen, b"2 C E7 --------\n"),
        (Refusal::RateNotInTariff, b"2 C E8 --------\n"),
        (Refusal::LinkOverbooked, b"2 C E9 --------\n"),
        (Refusal::SessionActive, b"2 C E10 --------\n"),
        (Refusal::AheadOfMark, b"2 C E11 --------\n"),
        (Refusal::LengthOutOfRange, b"2 C E12 --------\n"),
        (Refusal::QueueFull, b"2 C E13 --------\n"),
        (Refusal::NoneActive, b"2 C E14 --------\n"),
        (Refusal::TurnsUsedUp, b"2 C E15 --------\n"),
        (Refusal::KeepTooHigh, b"2 C E16 --------\n"),
    ];
    for (why, text) in refusals {
        says(&rt, |out| line(2, event, Err(why), out), text);
    }
}

#[test]
fn a_record_that_is_no_event_has_a_question_mark(rt: HostRuntime) {
    let faults: [(u64, Refusal, &[u8]); 4] = [
        (1, Refusal::TruncatedRecord, b"1 ? E1\n"),
        (20, Refusal::UnknownLetter, b"20 ? E2\n"),
        (300, Refusal::UnusedByteNotZero, b"300 ? E3\n"),
        (
            u64::MAX,
            Refusal::NoteNotPrintable,
            b"18446744073709551615 ? E4\n",
        ),
    ];
    for (number, why, text) in faults {
        says(&rt, |out| fault_line(number, why, out), text);
    }
}

#[test]
fn of_a_longer_note_eight_bytes_are_shown(rt: HostRuntime) {
    let notes: [(&[u8], &[u8]); 3] = [
        (b"123456789", b"7 G ok 12345678\n"),
        (b"1234", b"7 G ok 1234\n"),
        (b"", b"7 G ok \n"),
    ];
    for (note, text) in notes {
        let event = Event::Good { place: 0, note };
        says(&rt, |out| line(7, event, Ok(Answer::Done), out), text);
    }
}

#[test]
fn under_64_bytes_there_is_no_line(rt: HostRuntime) {
    let event = Event::Turn { note: b"--------" };
    assert_eq!(rt; Refusal::BufferTooShort.number(), 17);
    let expected = (Err(Refusal::BufferTooShort), [b'.'; 66]);
    // the length itself is what is tried
    for n in 0..64 {
        assert_eq!(rt;
            into_first(n, |out| line(1, event, Ok(Answer::Done), out)),
            expected
        );
        assert_eq!(rt;
            into_first(n, |out| fault_line(1, Refusal::TruncatedRecord, out)),
            expected
        );
    }
}

#[test]
fn from_64_bytes_on_there_is_one(rt: HostRuntime) {
    let event = Event::Turn { note: b"--------" };
    // the length itself is what is tried
    for n in 64..67 {
        assert_eq!(rt;
            into_first(n, |out| line(1, event, Ok(Answer::Done), out)),
            (
                Ok(16),
                *b"1 T ok --------\n.................................................."
            )
        );
        assert_eq!(rt;
            into_first(n, |out| fault_line(1, Refusal::TruncatedRecord, out)),
            (
                Ok(7),
                *b"1 ? E1\n..........................................................."
            )
        );
    }
}

#[test]
fn letters_are_their_characters(rt: HostRuntime) -> Result<(), Fail> {
    for (c, b) in [
        ('O', b'O'),
        ('C', b'C'),
        ('A', b'A'),
        ('G', b'G'),
        ('B', b'B'),
        ('T', b'T'),
    ] {
        assert_eq!(rt; u8::from(Letter::try_from(c)?), b);
    }
    for c in ['o', 't', '?', ' ', 'Ö', '\0'] {
        assert_eq!(rt; Letter::try_from(c), Err(Refusal::UnknownLetter));
    }
    Ok(())
}
