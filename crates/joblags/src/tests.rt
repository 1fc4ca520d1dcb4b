// What is printed of a short recording. The sheet follows from CREWS.md and RECORDS.md.
use crate::end::{End, ended};
use crate::play::play_through;
use crate::program::JobLags;
use cli::{Failure, tried};
use least_served::LeastServed;
use replay::new_cell;
use std::alloc::Global;
use std::num::NonZeroU64;
use std::process::Abort;
use std::rt::Files;
use std::str;
use std::test::Fail;

// Place 63 opens at rate 720720, and a frame of 100 bytes waits there.
const LAST_PLACE: [u8; 32] = *b"O\x3f\0\0\x50\xff\x0a\0--------A\x3f\x64\0\x07\0\0\0--------";

const SHEET: &str = "\
after record 2 mark 0 booked 720720 turns 0
place 63 rate 720720 time                0 lag           0 -     channel good waiting  1
";

// Another frame of 50 bytes waits there, and a turn sends the first: 100 bytes at price 1. The place
// stays active, so the mark is its time.
const A_TURN: &[u8] = b"\
O\x3f\0\0\x50\xff\x0a\0--------\
A\x3f\x64\0\x07\0\0\0--------\
A\x3f\x32\0\x08\0\0\0--------\
T\0\0\0\0\0\0\0--------";

const AFTER_IT: &str = "\
after record 4 mark 100 booked 720720 turns 1
place 63 rate 720720 time              100 lag           0 -     channel good waiting  1
";

// A sheet after every second record, and so after the last one: it is the one at the end too.
#[test]
fn no_sheet_is_printed_twice(rt: HostRuntime) -> Result<(), Fail> {
    for every in [None, NonZeroU64::new(2)] {
        let mut cell = new_cell(LeastServed::new());
        let out = Vec::new(rt.alloc());
        let (out, _) = play_through(rt.alloc(), &mut cell, every, LAST_PLACE.as_slice(), out)?;
        assert_eq!(rt; str::from_utf8(&out)?, SHEET);
    }
    Ok(())
}

// What comes out of words and a recording: the status, the sheets, and what is told.
fn comes_out<R: Abort + Files>(
    rt: &R,
    alloc: Global,
    words: &[&str],
    recording: &[u8],
    expected: (u8, &str, &str),
) -> Result<(), Fail> {
    let trial = tried::<JobLags, R>(rt, alloc, words, recording);
    let (status, sheets, told) = expected;
    assert_eq!(rt; str::from_utf8(&trial.output)?, sheets);
    assert_eq!(rt; str::from_utf8(&trial.errors)?, told);
    assert_eq!(rt; trial.status, status);
    Ok(())
}

#[test]
fn good_and_empty(rt: HostRuntime) -> Result<(), Fail> {
    let words = ["joblags", "--every", "2", "-"];
    comes_out(&rt, rt.alloc(), &words, &LAST_PLACE, (0, SHEET, ""))?;
    let nobody = "after record 0 mark 0 booked 0 turns 0\n";
    comes_out(&rt, rt.alloc(), &["joblags"], b"", (0, nobody, ""))
}

// One sheet of four records, whether nothing is asked for or 0.
#[test]
fn the_end_alone(rt: HostRuntime) -> Result<(), Fail> {
    comes_out(&rt, rt.alloc(), &["joblags"], A_TURN, (0, AFTER_IT, ""))?;
    let words = ["joblags", "--every", "0"];
    comes_out(&rt, rt.alloc(), &words, A_TURN, (0, AFTER_IT, ""))
}

#[test]
fn cut_and_faulty(rt: HostRuntime) -> Result<(), Fail> {
    let cut = "stopped at record 1 refusal 1 byte 7\nafter record 0 mark 0 booked 0 turns 0\n";
    let why =
        "joblags: refusal 1: the input ends inside a record, layer record, record 1, byte 7\n";
    comes_out(
        &rt,
        rt.alloc(),
        &["joblags"],
        b"O\0\0\0\0\0\0",
        (1, cut, why),
    )?;
    let faulty = "stopped at record 1 refusal 2 byte 0\nafter record 0 mark 0 booked 0 turns 0\n";
    let why =
        "joblags: refusal 2: byte 0 is none of O, C, A, G, B, T, layer record, record 1, byte 0\n";
    comes_out(
        &rt,
        rt.alloc(),
        &["joblags"],
        b"X\0\0\0\0\0\0\0--------",
        (1, faulty, why),
    )
}

// A million records may not be all of the input.
#[test]
fn the_limit_is_told(rt: HostRuntime) -> Result<(), Fail> {
    let fault = None;
    let played = 1_000_000;
    let Err(Failure::Fault(said)) = ended(End { played, fault }) else {
        return Err(Fail::new("the limit is no failure"));
    };
    let told = format!(in rt.alloc(); "{said:#}")?;
    assert_eq!(rt;
        told.as_str(),
        "1000000 records were played, and nothing past them was read"
    );
    let played = 999_999;
    assert!(rt; ended(End { played, fault }).is_ok());
    Ok(())
}

#[test]
fn words_are_told(rt: HostRuntime) -> Result<(), Fail> {
    let help =
        "Plays a recording into a cell, and prints job sheets: how each open place stands\n\nUsage: joblags [OPTIONS] [FILE]\n\nArguments:\n  [FILE]  The file to read; without it, or with -, the standard input\n\nOptions:\n      --every <N>  Prints a sheet after every Nth record too\n  -h, --help       Print help\n  -V, --version    Print version\n";
    comes_out(&rt, rt.alloc(), &["joblags", "--help"], b"", (0, help, ""))?;
    let refused =
        "error: invalid value 'x' for '--every <N>': invalid digit found in string\n\nFor more information, try '--help'.\n";
    comes_out(
        &rt,
        rt.alloc(),
        &["joblags", "--every", "x"],
        b"",
        (2, "", refused),
    )
}

#[test]
fn every_stands_once(rt: HostRuntime) -> Result<(), Fail> {
    let refused =
        "error: the argument '--every <N>' cannot be used multiple times\n\nUsage: joblags [OPTIONS] [FILE]\n\nFor more information, try '--help'.\n";
    let words = ["joblags", "--every", "2", "--every", "3"];
    comes_out(&rt, rt.alloc(), &words, b"", (2, "", refused))
}
