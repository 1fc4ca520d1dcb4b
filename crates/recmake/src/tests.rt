// From text to a recording: what is written, what is told, and the status.
use crate::make::RecMake;
use cli::tried;
use notation::print;
use record::read;
use std::alloc::Global;
use std::io::Write;
use std::process::Abort;
use std::rt::Files;
use std::str;
use std::test::Fail;

// What comes out of a text: the status, the recording, and what is told.
fn comes_out<R: Abort + Files>(
    rt: &R,
    alloc: Global,
    text: &[u8],
    expected: (u8, &[u8], &str),
) -> Result<(), Fail> {
    let trial = tried::<RecMake, R>(rt, alloc, &["recmake"], text);
    let (status, recording, told) = expected;
    assert_eq!(rt; trial.output.as_slice(), recording);
    assert_eq!(rt; str::from_utf8(&trial.errors)?, told);
    assert_eq!(rt; trial.status, status);
    Ok(())
}

#[test]
fn words_make_records(rt: HostRuntime) -> Result<(), Fail> {
    comes_out(
        &rt,
        rt.alloc(),
        b"# two places\n\nplace 0 opens at rate 360360, price 2 [--------]\n7: place 255 opens at rate 17, which is not in the tariff [no such ]\nplace 1 offers a frame of 1536 bytes, tag 4294967295 [a [b] #c]\n",
        (
            0,
            b"O\x00\x00\x00\xa8\x7f\x05\x00--------O\xff\x00\x00\x11\x00\x00\x00no such A\x01\x00\x06\xff\xff\xff\xffa [b] #c",
            "",
        ),
    )?;
    comes_out(
        &rt,
        rt.alloc(),
        b"the channel of place 2 is bad [--------]\nthe channel of place 2 is good [        ]\nplace 9 closes [        ]\na turn [~~~~~~~~]",
        (
            0,
            b"B\x02\x00\x00\x00\x00\x00\x00--------G\x02\x00\x00\x00\x00\x00\x00        C\x09\x00\x00\x00\x00\x00\x00        T\x00\x00\x00\x00\x00\x00\x00~~~~~~~~",
            "",
        ),
    )
}

#[test]
fn short_forms_make_records(rt: HostRuntime) -> Result<(), Fail> {
    comes_out(
        &rt,
        rt.alloc(),
        b"O 0 360360\nC 1 shuts\nA 2 100 1  a note\nG 3 \nB 63 12345678\nT [x]\n",
        (
            0,
            b"O\x00\x00\x00\xa8\x7f\x05\x00--------C\x01\x00\x00\x00\x00\x00\x00shuts   A\x02d\x00\x01\x00\x00\x00 a note G\x03\x00\x00\x00\x00\x00\x00        B?\x00\x00\x00\x00\x00\x0012345678T\x00\x00\x00\x00\x00\x00\x00[x]     ",
            "",
        ),
    )
}

#[test]
fn nothing_makes_nothing(rt: HostRuntime) -> Result<(), Fail> {
    comes_out(&rt, rt.alloc(), b"", (0, b"", ""))?;
    comes_out(&rt, rt.alloc(), b"# nothing\n\n#\n", (0, b"", ""))
}

// Each is the third line, behind an event and a comment.
#[test]
fn a_fault_is_told_by_its_line(rt: HostRuntime) -> Result<(), Fail> {
    let no_call =
        "recmake: line 3: no call, neither in words, as `place 0 closes`, nor short, as `C 0`\n";
    let no_note =
        "recmake: line 3: no note, neither eight printable bytes in brackets nor, behind `C 0`, eight at most\n";
    let faults: [(&[u8], &str); 12] = [
        (b"O 256 1", no_call),
        (b"C 01", no_call),
        (b"C +1", no_call),
        (b"A 0 65536 1", no_call),
        (b"A 0 100", no_call),
        (b"Place 0 closes [--------]", no_call),
        (b"place 0 opens at rate 360360, price 3 [--------]", no_call),
        (b" T", no_call),
        (b"T 123456789", no_note),
        (b"T\tnote", no_note),
        (b"a turn", no_note),
        (b"a turn [-------]", no_note),
    ];
    for (line, told) in faults {
        let mut text = b"T first\n# a comment\n".to_vec(rt.alloc())?;
        text.extend_from_slice(line)?;
        text.extend_from_slice(b"\nT last\n")?;
        comes_out(&rt, rt.alloc(), &text, (1, b"", told))?;
    }
    Ok(())
}

#[test]
fn a_line_is_cut(rt: HostRuntime) -> Result<(), Fail> {
    comes_out(
        &rt,
        rt.alloc(),
        b"T\nplace 0 clo",
        (
            1,
            b"",
            "recmake: line 2: no call, neither in words, as `place 0 closes`, nor short, as `C 0`\n",
        ),
    )
}

#[test]
fn help_is_shown(rt: HostRuntime) -> Result<(), Fail> {
    let trial = tried::<RecMake, HostRuntime>(&rt, rt.alloc(), &["recmake", "--help"], b"");
    let help =
        "Makes a recording of text: the sixteen bytes of the event that each line says\n\nUsage: recmake [FILE]\n\nArguments:\n  [FILE]  The file to read; without it, or with -, the standard input\n\nOptions:\n  -h, --help     Print help\n  -V, --version  Print version\n";
    assert_eq!(&rt; str::from_utf8(&trial.output)?, help);
    assert_eq!(&rt; trial.status, 0);
    Ok(())
}

// Records of every letter, with notes of all kinds, printed in words and made again.
#[test]
fn what_was_printed_is_made_again(rt: HostRuntime) -> Result<(), Fail> {
    let recording =
        b"O\x00\x00\x00\xa8\x7f\x05\x00--------O\x01\x00\x00p\xaa\x03\x00--------A\x00d\x00\x01\x00\x00\x00--------A\x00d\x00\x02\x00\x00\x00--------A\x01e\x00\x03\x00\x00\x00--------A\x012\x00\x04\x00\x00\x00--------B\x00\x00\x00\x00\x00\x00\x00--------T\x00\x00\x00\x00\x00\x00\x00--------G\x00\x00\x00\x00\x00\x00\x00--------T\x00\x00\x00\x00\x00\x00\x00--------T\x00\x00\x00\x00\x00\x00\x00--------T\x00\x00\x00\x00\x00\x00\x00--------T\x00\x00\x00\x00\x00\x00\x00--------C\x01\x00\x00\x00\x00\x00\x00--------O\x02\x00\x00\x11\x00\x00\x00no such O?\x00\x00\x01\x00\x00\x00hall 7 EA?\x00\x06\xff\xff\xff\xffcaption A@\x01\x00\x00\x00\x00\x00place 64A?\xff\xff\x07\x00\x00\x00too longB?\x00\x00\x00\x00\x00\x00fade in!G?\x00\x00\x00\x00\x00\x00fade outT\x00\x00\x00\x00\x00\x00\x00 ~~~~~~ C\xff\x00\x00\x00\x00\x00\x00\"'[]{}|~";
    let mut text = Vec::new(rt.alloc());
    let mut rest = recording.as_slice();
    for number in 1..24 {
        let Some((event, after)) = read(rest, number)? else {
            break;
        };
        write!(text, "{number}: ")?;
        print(&mut text, event)?;
        writeln!(text)?;
        rest = after;
    }
    comes_out(&rt, rt.alloc(), &text, (0, recording, ""))
}
