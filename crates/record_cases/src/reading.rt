// Reading: every letter, every fault, at every byte.
ghost use Rattle.std.specs.Prelude.{◌<◌};

use super::samples::{ARRIVE, BAD, CLOSE, GOOD, OPEN, SAID, TURN, fault};
use answer::{Fault, Refusal};
use record::{Letter, read};
use std::test::Fail;

// The fault that reading gives, if it gives one.
fn fault_in(input: &[u8], number: u64) -> Option<Fault> {
    read(input, number).err()
}

// The same with another byte at a place.
fn fault_with(mut record: [u8; 16], at: usize, byte: u8, number: u64) -> Option<Fault>
    requires { at < 16 }
{
    record[at] = byte;
    fault_in(&record, number)
}

#[test]
fn empty_input_has_no_record(rt: HostRuntime) -> Result<(), Fail> {
    assert!(rt; read(b"", 1)?.is_none());
    Ok(())
}

#[test]
fn every_letter_is_read(rt: HostRuntime) {
    for (record, event) in &SAID {
        assert_eq!(rt; read(record, 1), Ok(Some((*event, [].as_slice()))));
    }
}

#[test]
fn bytes_past_the_record_follow_it(rt: HostRuntime) -> Result<(), Fail> {
    let mut input = [b'?'; 39];
    input[..16].copy_from_slice(&ARRIVE);
    let (event, rest) = read(&input, 1)?.ok_or("no record")?;
    assert_eq!(rt; event.letter(), Letter::A);
    assert_eq!(rt; rest, [b'?'; 23].as_slice());
    Ok(())
}

#[test]
fn a_fragment_of_any_length_is_truncated(rt: HostRuntime) {
    for (record, _) in &SAID {
        // the length itself is what is tried
        for n in 1..16 {
            let expected = fault(Refusal::TruncatedRecord, 9, n);
            assert_eq!(rt; fault_in(&record[..n], 9), Some(expected));
        }
    }
    // whatever it begins with
    let expected = fault(Refusal::TruncatedRecord, 1_000_000, 1);
    assert_eq!(rt; fault_in(b"?", 1_000_000), Some(expected));
}

#[test]
fn any_other_letter_is_unknown(rt: HostRuntime) {
    for b in 0..=255u8 {
        let known = matches!(b, b'O' | b'C' | b'A' | b'G' | b'B' | b'T');
        let expected = (!known).then_some(fault(Refusal::UnknownLetter, 2, 0));
        assert_eq!(rt; fault_with(TURN, 0, b, 2), expected);
    }
}

#[test]
fn an_unused_byte_has_to_be_zero(rt: HostRuntime) {
    // the bytes that each record leaves unused
    let unused = [
        (OPEN, 2..4),
        (CLOSE, 2..8),
        (ARRIVE, 8..8),
        (GOOD, 2..8),
        (BAD, 2..8),
        (TURN, 1..8),
    ];
    for (record, unused) in unused {
        // the byte's number is what is tried
        for at in 1..8 {
            for b in [1, 32, 255] {
                let refused = fault(Refusal::UnusedByteNotZero, 4, at);
                let expected = unused.contains(&at).then_some(refused);
                assert_eq!(rt; fault_with(record, at, b, 4), expected);
            }
        }
    }
}

#[test]
fn a_note_is_printable(rt: HostRuntime) {
    for (record, _) in &SAID {
        // the byte's number is what is tried
        for at in 8..16 {
            for (b, good) in [
                (0, false),
                (31, false),
                (32, true),
                (126, true),
                (127, false),
                (128, false),
                (255, false),
            ] {
                let expected = (!good).then_some(fault(Refusal::NoteNotPrintable, 5, at));
                assert_eq!(rt; fault_with(*record, at, b, 5), expected);
            }
        }
    }
}

#[test]
fn the_first_fault_is_named(rt: HostRuntime) {
    // every byte wrong, and one thing after the other put right
    let mut bytes = [255u8; 16];
    let expected = fault(Refusal::TruncatedRecord, 6, 15);
    assert_eq!(rt; fault_in(&bytes[..15], 6), Some(expected));
    let expected = fault(Refusal::UnknownLetter, 6, 0);
    assert_eq!(rt; fault_in(&bytes, 6), Some(expected));
    bytes[0] = b'T';
    // the byte's number is a part of the fault
    for at in 1..8 {
        let expected = fault(Refusal::UnusedByteNotZero, 6, at);
        assert_eq!(rt; fault_in(&bytes, 6), Some(expected));
        bytes[at] = 0;
    }
    // the byte's number is a part of this fault too
    for at in 8..16 {
        let expected = fault(Refusal::NoteNotPrintable, 6, at);
        assert_eq!(rt; fault_in(&bytes, 6), Some(expected));
        bytes[at] = b' ';
    }
    assert_eq!(rt; fault_in(&bytes, 6), None);
}
