// The program on words and lines, and all that comes out.
use crate::program::Hallcalls;
use cli::{Trial, tried};
use std::alloc::Global;
use std::process::Abort;
use std::rt::Files;
use std::str;
use std::test::Fail;

fn comes_out<R: Abort + Files>(
    rt: &R,
    alloc: Global,
    words: &[&str],
    input: &str,
    expected: (u8, &str, &str),
) -> Result<(), Fail> {
    let Trial {
        status,
        output,
        errors,
    } = tried::<Hallcalls, _>(rt, alloc, words, input.as_bytes());
    assert_eq!(rt; str::from_utf8(&output)?, expected.1);
    assert_eq!(rt; str::from_utf8(&errors)?, expected.2);
    assert_eq!(rt; status, expected.0);
    Ok(())
}

// Place 0 fades, place 1 sends in its turn, and is asked about.
#[test]
fn a_borrowed_turn(rt: HostRuntime) -> Result<(), Fail> {
    let lines =
        "# a hall\nopen 0 360360\nopen 1 240240\narrive 0 100 1\narrive 1 101 3\nbad 0\n\n  turn\nsession 0\nsession 1\nframe 0 0\nframe 0 1\ncount extra 1\ncount credit 1\nmark\nbooked\nturns\nkeep\nquit\nturn\n";
    let answers =
        "done\ndone\ndone\ndone\ndone\nplace 0 has the turn, place 1 sends frame 3 of 101 bytes: extra\nrate 360360, price 2, virtual time 202, lag 101, allowance 0, bad channel, active, 1 waiting\nrate 240240, price 3, virtual time 0, lag -101, allowance 0, good channel, active, 0 waiting\nframe 1 of 100 bytes\nno frame\ncount 303\ncount 0\nmark 0\nbooked 600600\nturns 1\nkeep 2\nbye\n";
    comes_out(&rt, rt.alloc(), &["hallcalls"], lines, (0, answers, ""))
}

#[test]
fn the_words_choose_the_cell(rt: HostRuntime) -> Result<(), Fail> {
    let words = ["hallcalls", "--keep", "4", "--chooser", "largest-debt", "-"];
    let lines = "keep\nopen 0 720720\ncount credit 0";
    comes_out(
        &rt,
        rt.alloc(),
        &words,
        lines,
        (0, "keep 4\ndone\nnothing is counted there\n", ""),
    )?;
    let refused =
        "error: invalid value '5' for '--keep <QUARTERS>': 5 is not in 0..=4\n\nFor more information, try '--help'.\n";
    comes_out(
        &rt,
        rt.alloc(),
        &["hallcalls", "--keep", "5"],
        lines,
        (2, "", refused),
    )
}

// Refusals and lines that are no command are told, and the next line is read.
#[test]
fn refusals_are_told(rt: HostRuntime) -> Result<(), Fail> {
    let lines =
        "open 64 7\nopen 0 17\nclose 0\nturn\narrive 0\nopen 0 4294967296\nopen 256 7\nopen 0 +7\nsing\nturn 0\narrive 0 1 2 3\narrive 0 1 2 3 4\nopen 0 7";
    let unknown = "neither a call nor a question: `help` lists them\n";
    let mut answers = String::new(rt.alloc());
    answers.push_str(
        "refusal 5: a place above 63\nrefusal 8: a rate that doesn't divide 720,720 (0 too)\n",
    )?;
    answers.push_str(
        "refusal 7: a call other than opening on a place that isn't open\nrefusal 14: a turn while no session is active\n",
    )?;
    for _ in 0..8 {
        answers.push_str(unknown)?;
    }
    answers.push_str("done\n")?;
    comes_out(
        &rt,
        rt.alloc(),
        &["hallcalls"],
        lines,
        (0, answers.as_str(), ""),
    )
}

#[test]
fn empty_and_cut_input(rt: HostRuntime) -> Result<(), Fail> {
    comes_out(&rt, rt.alloc(), &["hallcalls"], "", (0, "", ""))?;
    comes_out(
        &rt,
        rt.alloc(),
        &["hallcalls"],
        "mark\nope",
        (
            0,
            "mark 0\nneither a call nor a question: `help` lists them\n",
            "",
        ),
    )
}

#[test]
fn help_is_shown(rt: HostRuntime) -> Result<(), Fail> {
    let help =
        "A cell at the prompt: calls and questions, one a line; `help` lists them\n\nUsage: hallcalls [OPTIONS] [FILE]\n\nArguments:\n  [FILE]  The file to read; without it, or with -, the standard input\n\nOptions:\n      --keep <QUARTERS>  What a leading session keeps of its own turns [default: 2]\n      --chooser <NAME>   Who gets a turn that its owner can't use [default: least-served] [possible values: least-served, largest-debt]\n  -h, --help             Print help\n  -V, --version          Print version\n";
    comes_out(
        &rt,
        rt.alloc(),
        &["hallcalls", "--help"],
        "mark\n",
        (0, help, ""),
    )?;
    comes_out(
        &rt,
        rt.alloc(),
        &["hallcalls", "--version"],
        "mark\n",
        (0, "hallcalls 1.0.0\n", ""),
    )?;
    let commands =
        "open PLACE RATE          opens a place at a rate that divides 720720\nclose PLACE              closes it\narrive PLACE LENGTH TAG  a frame of so many bytes arrives\ngood PLACE, bad PLACE    the channel of a place is good or bad\nturn                     gives a turn away\nsession PLACE            how its session stands\nframe PLACE N            the frame that leaves it after N others\nmark, booked             the virtual time, and the rates of all open places\nturns, keep              the turns accepted, and the quarters that a leading session keeps\ncount LIST PLACE         the service counted for a place in the list credit or extra\nhelp, quit               this list, and the end; what begins with # is not read\n";
    comes_out(&rt, rt.alloc(), &["hallcalls"], "help\n", (0, commands, ""))
}
