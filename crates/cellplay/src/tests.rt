// Recordings that are played into the program's cell, and all that is printed. The lines follow from RULES.md and
// RECORDS.md, and the reference prints them too.
use player::play_new;
use std::alloc::Global;
use std::io::{ErrorKind, Read, Write};
use std::process::Abort;
use std::test::Fail;
use std::{io, str};

// A record's letter, place, length and value, and what is printed of it. Bytes and no `Event`: one letter is none of the six, and what is
// expected does not come from the code that is tested.
type Row<'a> = (u8, u8, u16, u32, &'a str);

fn prints(rt: &impl Abort, alloc: Global, rows: &[Row]) -> Result<(), Fail> {
    let mut recording = Vec::new(alloc);
    let mut lines = String::new(alloc);
    for &(letter, place, length, value, line) in rows {
        recording.extend_from_slice(&[letter, place])?;
        recording.extend_from_slice(&length.to_le_bytes())?;
        recording.extend_from_slice(&value.to_le_bytes())?;
        recording.extend_from_slice(b"--------")?;
        lines.push_str(line)?;
    }
    let out = play_new(alloc, recording.as_slice(), Vec::new(alloc))?;
    assert_eq!(rt; str::from_utf8(&out)?, lines.as_str());
    Ok(())
}

// Place 0 fades while place 1 sends 1500 bytes, and place 1 leads from then on. When it has sent 100 bytes at price 2
// its allowance is down by 400, and it is up by 400 when place 0 has sent in its turn: so they take turns. With a keep of
// 4 place 1 would send in the second turn too, with 3 in the fourth, and with 0 or 1 not in the third.
#[test]
fn a_leading_session_keeps_half(rt: HostRuntime) -> Result<(), Fail> {
    prints(
        &rt,
        rt.alloc(),
        &[
            (b'O', 0, 0, 360_360, "1 O ok --------\n"),
            (b'O', 1, 0, 360_360, "2 O ok --------\n"),
            (b'B', 0, 0, 0, "3 B ok --------\n"),
            (b'A', 0, 100, 1, "4 A ok --------\n"),
            (b'A', 0, 100, 2, "5 A ok --------\n"),
            (b'A', 0, 100, 3, "6 A ok --------\n"),
            (b'A', 1, 1500, 11, "7 A ok --------\n"),
            (b'A', 1, 100, 12, "8 A ok --------\n"),
            (b'A', 1, 100, 13, "9 A ok --------\n"),
            (b'A', 1, 100, 14, "10 A ok --------\n"),
            (b'T', 0, 0, 0, "11 T 0/1/11/1500/x --------\n"),
            (b'G', 0, 0, 0, "12 G ok --------\n"),
            (b'T', 0, 0, 0, "13 T 1/1/12/100/n --------\n"),
            (b'T', 0, 0, 0, "14 T 1/0/1/100/c --------\n"),
            (b'T', 0, 0, 0, "15 T 1/1/13/100/n --------\n"),
            (b'T', 0, 0, 0, "16 T 1/0/2/100/c --------\n"),
        ],
    )
}

// Places 0 and 1 fade while place 2 sends 100 and 1500 bytes in their turns. Nobody has been paid back yet, so that place 0 comes
// first, though place 1 is owed more.
#[test]
fn the_least_served_is_paid_back(rt: HostRuntime) -> Result<(), Fail> {
    prints(
        &rt,
        rt.alloc(),
        &[
            (b'O', 0, 0, 240_240, "1 O ok --------\n"),
            (b'O', 1, 0, 240_240, "2 O ok --------\n"),
            (b'O', 2, 0, 240_240, "3 O ok --------\n"),
            (b'B', 0, 0, 0, "4 B ok --------\n"),
            (b'B', 1, 0, 0, "5 B ok --------\n"),
            (b'A', 0, 100, 1, "6 A ok --------\n"),
            (b'A', 1, 100, 2, "7 A ok --------\n"),
            (b'A', 2, 100, 3, "8 A ok --------\n"),
            (b'A', 2, 1500, 4, "9 A ok --------\n"),
            (b'A', 2, 50, 5, "10 A ok --------\n"),
            (b'A', 2, 100, 6, "11 A ok --------\n"),
            (b'T', 0, 0, 0, "12 T 0/2/3/100/x --------\n"),
            (b'T', 0, 0, 0, "13 T 1/2/4/1500/x --------\n"),
            (b'G', 0, 0, 0, "14 G ok --------\n"),
            (b'G', 1, 0, 0, "15 G ok --------\n"),
            (b'T', 0, 0, 0, "16 T 2/2/5/50/n --------\n"),
            (b'T', 0, 0, 0, "17 T 2/0/1/100/c --------\n"),
        ],
    )
}

// No record has the letter X. Two good ones come after it.
#[test]
fn nothing_is_played_after_a_fault(rt: HostRuntime) -> Result<(), Fail> {
    prints(
        &rt,
        rt.alloc(),
        &[
            (b'O', 0, 0, 360_360, "1 O ok --------\n"),
            (b'A', 0, 100, 1, "2 A ok --------\n"),
            (b'X', 0, 100, 2, "3 ? E2\n"),
            (b'A', 0, 100, 3, ""),
            (b'T', 0, 0, 0, ""),
        ],
    )
}

// Gives turns, and fails at the twentieth read.
#[derive(Drop)]
struct Failing {
    reads: u8,
}

impl Read for Failing {
    fn read(&mut self, buf: &mut [u8]) -> io::Result<usize> {
        if self.reads >= 20 {
            return Err(io::Error::from(ErrorKind::PermissionDenied));
        }
        if buf.len() < 16 {
            return Ok(0);
        }
        self.reads += 1;
        buf[..16].copy_from_slice(b"T\0\0\0\0\0\0\0--------");
        Ok(16)
    }
}

#[test]
fn an_error_of_reading_comes_back(rt: HostRuntime) {
    let played = play_new(rt.alloc(), Failing { reads: 0 }, Vec::new(rt.alloc()));
    assert_eq!(rt;
        played.err().map(|e| e.kind()),
        Some(ErrorKind::PermissionDenied)
    );
}

// Takes nothing.
#[derive(Drop)]
struct Full;

impl Write for Full {
    fn write(&mut self, _buf: &[u8]) -> io::Result<usize> {
        Err(io::Error::from(ErrorKind::StorageFull))
    }

    fn flush(&mut self) -> io::Result<()> {
        Ok(())
    }
}

#[test]
fn an_error_of_writing_comes_back(rt: HostRuntime) {
    let played = play_new(rt.alloc(), b"X".as_slice(), Full);
    assert_eq!(rt;
        played.err().map(|e| e.kind()),
        Some(ErrorKind::StorageFull)
    );
}
