// Recordings, from the words after the program's name to all that comes out. The lines and states are those of the
// reference, and the sums were worked out from them.
use crate::program::HallPlay;
use cli::{Trial, tried};
use std::alloc::Global;
use std::process::Abort;
use std::rt::Files;
use std::str;
use std::test::Fail;

// Places 0 and 1 open, and frames wait at both. Place 0 fades, place 1 sends in its turn, leads, and sends within its allowance;
// it is to close too early.
const FADE: &[u8] =
    b"O\x00\x00\x00\xa8\x7f\x05\x00first   O\x01\x00\x00\xa8\x7f\x05\x00second  A\x00\x64\x00\x01\x00\x00\x00--------A\x01\xc8\x00\x02\x00\x00\x00--------A\x01\xc8\x00\x03\x00\x00\x00--------B\x00\x00\x00\x00\x00\x00\x00fade    T\x00\x00\x00\x00\x00\x00\x00--------G\x00\x00\x00\x00\x00\x00\x00back    T\x00\x00\x00\x00\x00\x00\x00--------C\x01\x00\x00\x00\x00\x00\x00early   ";

const LINES: &str =
    "1 O ok first   \n2 O ok second  \n3 A ok --------\n4 A ok --------\n5 A ok --------\n6 B ok fade    \n7 T 0/1/2/200/x --------\n8 G ok back    \n9 T 1/1/3/200/n --------\n10 C E10 early   \n";

fn comes_out<R: Abort + Files>(
    rt: &R,
    alloc: Global,
    words: &[&str],
    input: &[u8],
    expected: (u8, &str, &str),
) -> Result<(), Fail> {
    let Trial {
        status,
        output,
        errors,
    } = tried::<HallPlay, R>(rt, alloc, words, input);
    let (wanted, text, said) = expected;
    assert_eq!(rt; str::from_utf8(&output)?, text);
    assert_eq!(rt; str::from_utf8(&errors)?, said);
    assert_eq!(rt; status, wanted);
    Ok(())
}

#[test]
fn lines(rt: HostRuntime) -> Result<(), Fail> {
    comes_out(&rt, rt.alloc(), &["hallplay"], FADE, (0, LINES, ""))?;
    comes_out(&rt, rt.alloc(), &["hallplay", "-"], b"", (0, "", ""))
}

#[test]
fn words(rt: HostRuntime) -> Result<(), Fail> {
    let text =
        "1 place 0: open at rate 360360: ok [first   ]\n2 place 1: open at rate 360360: ok [second  ]\n3 place 0: a frame of 100 bytes, tag 1: ok [--------]\n4 place 1: a frame of 200 bytes, tag 2: ok [--------]\n5 place 1: a frame of 200 bytes, tag 3: ok [--------]\n6 place 0: its channel is bad: ok [fade    ]\n7 place 0: turn: place 1 sent 200 bytes of tag 2 in another's turn (x) [--------]\n8 place 0: its channel is good: ok [back    ]\n9 place 1: turn: place 1 sent 200 bytes of tag 3 in its own turn (n) [--------]\n10 place 1: close: refusal 10: closing an active session [early   ]\n";
    comes_out(
        &rt,
        rt.alloc(),
        &["hallplay", "--words"],
        FADE,
        (0, text, ""),
    )
}

// After the last record that is due, and last.
#[test]
fn states(rt: HostRuntime) -> Result<(), Fail> {
    let text =
        "1 O ok first   \n2 O ok second  \n3 A ok --------\n4 A ok --------\n5 A ok --------\n6 B ok fade    \n7 T 0/1/2/200/x --------\nstate after 7 mark 0 booked 720720 turns 1 keep 4\nplace 0 rate 360360 price 2 time 400 lag 200 allowance 0 channel bad active yes credit 0 extra 0 waiting 1 1:100\nplace 1 rate 360360 price 2 time 0 lag -200 allowance 0 channel good active yes credit 0 extra 400 waiting 1 3:200\n8 G ok back    \n9 T 1/1/3/200/n --------\n10 C E10 early   \nstate after 10 mark 400 booked 720720 turns 2 keep 4\nplace 0 rate 360360 price 2 time 400 lag 200 allowance 0 channel good active yes credit 0 extra 0 waiting 1 1:100\nplace 1 rate 360360 price 2 time 400 lag -200 allowance 0 channel good active yes credit 0 extra 400 waiting 0\n";
    comes_out(
        &rt,
        rt.alloc(),
        &["hallplay", "--states", "7", "--keep=4"],
        FADE,
        (0, text, ""),
    )
}

#[test]
fn nobody_was_there(rt: HostRuntime) -> Result<(), Fail> {
    let text =
        "   place    rate   price        sent         own    borrowed    lost refused     highest      lowest  share%   link%\nturns: 0 own, 0 paid back, 0 kept, 0 extra, 0 idle\nbytes: 0\n";
    comes_out(
        &rt,
        rt.alloc(),
        &["hallplay", "--summary"],
        b"",
        (0, text, ""),
    )
}

// A record is cut, or has no letter.
#[test]
fn faults(rt: HostRuntime) -> Result<(), Fail> {
    let cut = &FADE[..20];
    comes_out(
        &rt,
        rt.alloc(),
        &["hallplay"],
        cut,
        (
            1,
            "1 O ok first   \n2 ? E1\n",
            "hallplay: refusal 1: the input ends inside a record, layer record, record 2, byte 4\n",
        ),
    )?;
    comes_out(
        &rt,
        rt.alloc(),
        &["hallplay", "--words"],
        b"X\x00\x00\x00\x00\x00\x00\x00--------T\x00\x00\x00\x00\x00\x00\x00--------",
        (
            1,
            "1 no event: refusal 2: byte 0 is none of O, C, A, G, B, T, byte 0\n",
            "hallplay: refusal 2: byte 0 is none of O, C, A, G, B, T, layer record, record 1, byte 0\n",
        ),
    )?;
    comes_out(
        &rt,
        rt.alloc(),
        &["hallplay", "--states", "5", "--chooser", "largest-debt"],
        cut,
        (
            1,
            "1 O ok first   \n2 ? E1\nfault 1 layer record number 2 byte 4\nstate after 2 mark 0 booked 360360 turns 0 keep 2\nplace 0 rate 360360 price 2 time 0 lag 0 allowance 0 channel good active no credit 0 extra 0 waiting 0\n",
            "hallplay: refusal 1: the input ends inside a record, layer record, record 2, byte 4\n",
        ),
    )
}

#[test]
fn mistakes(rt: HostRuntime) -> Result<(), Fail> {
    comes_out(
        &rt,
        rt.alloc(),
        &["hallplay", "--keep", "5"],
        b"",
        (
            2,
            "",
            "error: invalid value '5' for '--keep <K>'\n  [possible values: 0, 1, 2, 3, 4]\n\nFor more information, try '--help'.\n",
        ),
    )?;
    comes_out(
        &rt,
        rt.alloc(),
        &["hallplay", "--words", "--summary"],
        b"",
        (
            2,
            "",
            "error: the argument '--words' cannot be used with '--summary'\n\nUsage: hallplay --words [FILE]\n\nFor more information, try '--help'.\n",
        ),
    )
}

#[test]
fn help(rt: HostRuntime) -> Result<(), Fail> {
    let text =
        "Plays a recording into a cell, and tells of it\n\nUsage: hallplay [OPTIONS] [FILE]\n\nArguments:\n  [FILE]  The file to read; without it, or with -, the standard input\n\nOptions:\n      --keep <K>        What leading sessions keep of their turns, in quarters [default: 2] [possible values: 0, 1, 2, 3, 4]\n      --chooser <NAME>  Who picks whom a turn goes to that its owner cannot use [default: least-served] [possible values: least-served, largest-debt]\n      --words           Tells of each record in words\n      --summary         Sums up what each place got, in place of the lines\n      --states <N>      Prints the state of the cell after every Nth record, and last\n  -h, --help            Print help\n  -V, --version         Print version\n";
    comes_out(&rt, rt.alloc(), &["hallplay", "--help"], b"", (0, text, ""))?;
    comes_out(
        &rt,
        rt.alloc(),
        &["hallplay", "--version"],
        b"",
        (0, "hallplay 1.0.0\n", ""),
    )
}
