// The program on words and recordings, and all that comes out.
use crate::end::{End, ended};
use crate::program::RecList;
use cli::{Failure, tried};
use std::alloc::Global;
use std::process::Abort;
use std::rt::Files;
use std::str;
use std::test::Fail;

// Two records, the second with a rate that the tariff lacks.
const TWO: &[u8] = b"O\x00\x00\x00\xa8\x7f\x05\x00--------O\x09\x00\x00\x11\x00\x00\x00no such ";

// What comes out of words and a recording: the status, the listing, and what is told.
fn comes_out<R: Abort + Files>(
    rt: &R,
    alloc: Global,
    words: &[&str],
    recording: &[u8],
    expected: (u8, &str, &str),
) -> Result<(), Fail> {
    let trial = tried::<RecList, R>(rt, alloc, words, recording);
    let (status, listing, told) = expected;
    assert_eq!(rt; str::from_utf8(&trial.output)?, listing);
    assert_eq!(rt; str::from_utf8(&trial.errors)?, told);
    assert_eq!(rt; trial.status, status);
    Ok(())
}

#[test]
fn events_are_numbered(rt: HostRuntime) -> Result<(), Fail> {
    comes_out(
        &rt,
        rt.alloc(),
        &["reclist"],
        TWO,
        (
            0,
            "1: place 0 opens at rate 360360, price 2 [--------]\n2: place 9 opens at rate 17, which is not in the tariff [no such ]\n2 records: 2 O, 0 C, 0 A, 0 G, 0 B, 0 T; 0 bytes offered\n",
            "",
        ),
    )
}

// The words of the sample that recmake makes its recording of.
#[test]
fn plain_is_words_alone(rt: HostRuntime) -> Result<(), Fail> {
    comes_out(
        &rt,
        rt.alloc(),
        &["reclist", "--plain"],
        b"O\x00\x00\x00\xa8\x7f\x05\x00--------O\x01\x00\x00p\xaa\x03\x00--------A\x00d\x00\x01\x00\x00\x00--------A\x00d\x00\x02\x00\x00\x00--------A\x01e\x00\x03\x00\x00\x00--------A\x012\x00\x04\x00\x00\x00--------B\x00\x00\x00\x00\x00\x00\x00--------T\x00\x00\x00\x00\x00\x00\x00--------G\x00\x00\x00\x00\x00\x00\x00--------T\x00\x00\x00\x00\x00\x00\x00--------T\x00\x00\x00\x00\x00\x00\x00--------T\x00\x00\x00\x00\x00\x00\x00--------T\x00\x00\x00\x00\x00\x00\x00--------C\x01\x00\x00\x00\x00\x00\x00--------",
        (
            0,
            "place 0 opens at rate 360360, price 2 [--------]\nplace 1 opens at rate 240240, price 3 [--------]\nplace 0 offers a frame of 100 bytes, tag 1 [--------]\nplace 0 offers a frame of 100 bytes, tag 2 [--------]\nplace 1 offers a frame of 101 bytes, tag 3 [--------]\nplace 1 offers a frame of 50 bytes, tag 4 [--------]\nthe channel of place 0 is bad [--------]\na turn [--------]\nthe channel of place 0 is good [--------]\na turn [--------]\na turn [--------]\na turn [--------]\na turn [--------]\nplace 1 closes [--------]\n",
            "",
        ),
    )
}

#[test]
fn an_empty_recording(rt: HostRuntime) -> Result<(), Fail> {
    comes_out(
        &rt,
        rt.alloc(),
        &["reclist"],
        b"",
        (
            0,
            "0 records: 0 O, 0 C, 0 A, 0 G, 0 B, 0 T; 0 bytes offered\n",
            "",
        ),
    )?;
    comes_out(&rt, rt.alloc(), &["reclist", "--plain"], b"", (0, "", ""))
}

#[test]
fn a_fault_ends_the_list(rt: HostRuntime) -> Result<(), Fail> {
    let cut = &TWO[..20];
    let told =
        "reclist: refusal 1: the input ends inside a record, layer record, record 2, byte 4\n";
    comes_out(
        &rt,
        rt.alloc(),
        &["reclist"],
        cut,
        (
            1,
            "1: place 0 opens at rate 360360, price 2 [--------]\nrefusal 1, layer record, record 2, byte 4\n1 records: 1 O, 0 C, 0 A, 0 G, 0 B, 0 T; 0 bytes offered\n",
            told,
        ),
    )?;
    comes_out(
        &rt,
        rt.alloc(),
        &["reclist", "--plain"],
        cut,
        (
            1,
            "place 0 opens at rate 360360, price 2 [--------]\n",
            told,
        ),
    )?;
    comes_out(
        &rt,
        rt.alloc(),
        &["reclist", "--plain"],
        b"X\x00\x00\x00\x00\x00\x00\x00--------",
        (
            1,
            "",
            "reclist: refusal 2: byte 0 is none of O, C, A, G, B, T, layer record, record 1, byte 0\n",
        ),
    )
}

// A million records may not be all of the input.
#[test]
fn the_limit_is_told(rt: HostRuntime) -> Result<(), Fail> {
    let fault = None;
    let listed = 1_000_000;
    let Err(Failure::Fault(said)) = ended(End { listed, fault }) else {
        return Err(Fail::new("the limit is no failure"));
    };
    let told = format!(in rt.alloc(); "{said:#}")?;
    assert_eq!(rt;
        told.as_str(),
        "1000000 records were listed, and nothing past them was read"
    );
    let listed = 999_999;
    assert!(rt; ended(End { listed, fault }).is_ok());
    Ok(())
}

#[test]
fn help_is_shown(rt: HostRuntime) -> Result<(), Fail> {
    let help =
        "Prints a recording in words, event by event, and what it adds up to\n\nUsage: reclist [OPTIONS] [FILE]\n\nArguments:\n  [FILE]  The file to read; without it, or with -, the standard input\n\nOptions:\n      --plain    Prints the words of the events alone, as recmake reads them\n  -h, --help     Print help\n  -V, --version  Print version\n";
    comes_out(&rt, rt.alloc(), &["reclist", "--help"], TWO, (0, help, ""))
}
