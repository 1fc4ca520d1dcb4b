// A program that copies what it reads, from its words to its status.
use crate::{Failure, Program, Progress, Reads, Start, run};
use clap::{Arg, ArgAction, ArgMatches, Command};
use std::alloc::{AllocError, Global};
use std::io::{Read, Write};
use std::process::Abort;
use std::rt::Files;
use std::test::Fail;
use std::{io, str};

// Copies its input; a byte of 0 is a fault.
#[derive(Drop)]
struct Copies {
    twice: bool,
}

impl Program for Copies {
    const NAME: &'static str = "copies";

    const ABOUT: &'static str = "Copies what it reads";

    const READS: Reads = Reads::Records;

    fn options<'a>(alloc: Global, command: Command<'a>) -> Result<Command<'a>, AllocError> {
        let twice = Arg::new(alloc, "twice")
            .long("twice")
            .action(ArgAction::SetTrue)
            .help("Writes all of it twice");
        command.arg(twice)
    }

    fn chosen(matches: &ArgMatches<'_>) -> Copies {
        Copies {
            twice: matches.get_flag("twice"),
        }
    }

    fn run<R: Read + Drop, W: Write + Drop>(
        &self,
        alloc: Global,
        input: R,
        output: W,
    ) -> Result<(), Failure> {
        let mut input = input;
        let mut output = output;
        let mut bytes = Vec::new(alloc);
        input.read_to_end(&mut bytes)?;
        output.write_all(&bytes)?;
        if self.twice {
            output.write_all(&bytes)?;
        }
        if bytes.contains(&0) {
            return Err(Failure::Fault(anyhow::anyhow!("a byte of 0")));
        }
        Ok(())
    }
}

// The words after the program's name, its input, and whether it and the error output are terminals.
type Case<'a> = (&'a [&'a str], &'a [u8], bool);

// What comes out: the status, the output, the error output.
fn comes_out<R: Abort + Files>(
    rt: &R,
    alloc: Global,
    case: Case,
    expected: (u8, &str, &str),
) -> Result<(), Fail> {
    let (words, input, at_terminal) = case;
    let (mut output, mut errors) = (Vec::new(alloc), Vec::new(alloc));
    let start = Start {
        files: rt,
        alloc,
        words,
        input_is_terminal: at_terminal,
        errors_are_terminal: at_terminal,
    };
    let status = run::<Copies, _, _, _, _, _>(start, input, &mut output, &mut errors);
    let (wanted, out, said) = expected;
    assert_eq!(rt; status, wanted);
    assert_eq!(rt; str::from_utf8(&output)?, out);
    assert_eq!(rt; str::from_utf8(&errors)?, said);
    Ok(())
}

// An output whose every write fails in this way.
#[derive(Drop)]
struct Fails(io::ErrorKind);

impl Write for Fails {
    fn write(&mut self, _buf: &[u8]) -> io::Result<usize> {
        Err(io::Error::from(self.0))
    }

    fn flush(&mut self) -> io::Result<()> {
        Ok(())
    }
}

fn ends<R: Abort + Files>(
    rt: &R,
    alloc: Global,
    kind: io::ErrorKind,
    expected: (u8, &str),
) -> Result<(), Fail> {
    let mut errors = Vec::new(alloc);
    let start = Start {
        files: rt,
        alloc,
        words: ["copies"].as_slice(),
        input_is_terminal: false,
        errors_are_terminal: false,
    };
    let status = run::<Copies, _, _, _, _, _>(
        start,
        b"some".as_slice(),
        &mut Fails(kind),
        &mut errors,
    );
    assert_eq!(rt; status, expected.0);
    assert_eq!(rt; str::from_utf8(&errors)?, expected.1);
    Ok(())
}

#[test]
fn words_choose(rt: HostRuntime) -> Result<(), Fail> {
    comes_out(
        &rt,
        rt.alloc(),
        (&["copies"], b"some\n", false),
        (0, "some\n", ""),
    )?;
    comes_out(
        &rt,
        rt.alloc(),
        (&["copies", "-", "--twice"], b"some\n", false),
        (0, "some\nsome\n", ""),
    )?;
    comes_out(&rt, rt.alloc(), (&["copies"], b"", false), (0, "", ""))
}

#[test]
fn help_and_version_are_shown(rt: HostRuntime) -> Result<(), Fail> {
    let help =
        "Copies what it reads\n\nUsage: copies [OPTIONS] [FILE]\n\nArguments:\n  [FILE]  The file to read; without it, or with -, the standard input\n\nOptions:\n      --twice    Writes all of it twice\n  -h, --help     Print help\n  -V, --version  Print version\n";
    comes_out(
        &rt,
        rt.alloc(),
        (&["copies", "--help"], b"some\n", true),
        (0, help, ""),
    )?;
    comes_out(
        &rt,
        rt.alloc(),
        (&["copies", "--version"], b"", true),
        (0, "copies 1.0.0\n", ""),
    )
}

#[test]
fn mistakes_are_told(rt: HostRuntime) -> Result<(), Fail> {
    let unknown =
        "error: unexpected argument '--thrice' found\n\n  tip: a similar argument exists: '--twice'\n\nUsage: copies --twice [FILE]\n\nFor more information, try '--help'.\n";
    comes_out(
        &rt,
        rt.alloc(),
        (&["copies", "--thrice"], b"some\n", false),
        (2, "", unknown),
    )?;
    let terminal =
        "error: no FILE, and the standard input is a terminal\n\nUsage: copies [OPTIONS] [FILE]\n\nFor more information, try '--help'.\n";
    comes_out(
        &rt,
        rt.alloc(),
        (&["copies"], b"some\n", true),
        (2, "", terminal),
    )?;
    comes_out(
        &rt,
        rt.alloc(),
        (&["copies", "-"], b"some\n", true),
        (2, "", terminal),
    )?;
    let missing = "copies: no such folder/hall: No such file or directory (os error 2)\n";
    comes_out(
        &rt,
        rt.alloc(),
        (&["copies", "no such folder/hall"], b"some\n", true),
        (2, "", missing),
    )
}

#[test]
fn a_fault_is_told(rt: HostRuntime) -> Result<(), Fail> {
    comes_out(
        &rt,
        rt.alloc(),
        (&["copies"], b"a\x00", false),
        (1, "a\x00", "copies: a byte of 0\n"),
    )
}

#[test]
fn a_closed_output_ends_quietly(rt: HostRuntime) -> Result<(), Fail> {
    ends(&rt, rt.alloc(), io::ErrorKind::BrokenPipe, (0, ""))?;
    ends(
        &rt,
        rt.alloc(),
        io::ErrorKind::StorageFull,
        (2, "copies: no storage space\n"),
    )
}

// Ten bytes are missing to the next 100,000 records, and eight are read at a time.
#[test]
fn progress_is_told_at_each_step(rt: HostRuntime) -> Result<(), Fail> {
    let mut errors = Vec::new(rt.alloc());
    let mut progress = Progress::new("copies", [7; 40].as_slice(), true, &mut errors);
    progress.passed = 3_199_990;
    let mut eight = [0; 8];
    for _ in 0..5 {
        assert_eq!(rt; progress.read(&mut eight)?, 8);
    }
    assert_eq!(rt; progress.passed, 3_200_030);
    assert_eq!(rt; str::from_utf8(&errors)?, "copies: 200000 records\n");
    Ok(())
}
