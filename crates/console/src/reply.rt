// What a cell answers to a command, and how that reads.
ghost use Rattle.std.specs.Prelude.{◌≡◌};
ghost use Rattle.std.specs.Fmt.{WritesOnOk};
ghost use Rattle.cell.specs.View.{view};
ghost use Rattle.chooser.specs.Meaning.{meant};
ghost use Rattle.console.specs.Replies.{activity, cell_left, channel_name, kind_name, reply_to, turn_words};

use crate::command::Command;
use crate::counted::Counted;
use answer::{Answer, Kind, Refusal, Sent, Turn};
use cell::{Cell, Standing};
use queue::Frame;
use replay::call;
use std::fmt;

/// What is told of all commands.
pub const HELP: &str = "\
open PLACE RATE          opens a place at a rate that divides 720720
close PLACE              closes it
arrive PLACE LENGTH TAG  a frame of so many bytes arrives
good PLACE, bad PLACE    the channel of a place is good or bad
turn                     gives a turn away
session PLACE            how its session stands
frame PLACE N            the frame that leaves it after N others
mark, booked             the virtual time, and the rates of all open places
turns, keep              the turns accepted, and the quarters that a leading session keeps
count LIST PLACE         the service counted for a place in the list credit or extra
help, quit               this list, and the end; what begins with # is not read";

/// What is answered to a command that is not refused.
#[derive(Clone, Copy, PartialEq, Eq, Debug)]
pub enum Reply {
    /// The call was made.
    Done,
    /// What the turn was.
    Turn(Turn),
    /// How a session stands.
    Session(Standing),
    /// The frame that waits there, if one does.
    Frame(Option<Frame>),
    Mark(u64),
    Booked(u32),
    Turns(u32),
    Keep(u8),
    /// The service counted, if the chooser counts it.
    Count(Option<u64>),
    Help,
    Bye,
}

impl From<Answer> for Reply {
    ghost use Rattle.std.specs.Prelude.{◌≡◌};
    ghost use Rattle.console.specs.Replies.{answered};

    ghost from_gives = { λ answer reply. reply ≡ answered answer };

    fn from(answer: Answer) -> Reply {
        match answer {
            Answer::Done => Reply::Done,
            Answer::Turn(turn) => Reply::Turn(turn),
        }
    }
}

fn kind_name(kind: Kind) -> &'static str
    ensures { result.now ≡ kind_name kind }
{
    match kind {
        Kind::Normal => "normal",
        Kind::Credit => "credit",
        Kind::Kept => "kept",
        Kind::Extra => "extra",
        Kind::Idle => "idle",
    }
}

fn write_turn<W: fmt::Write>(f: &mut fmt::Formatter<W>, turn: Turn) -> fmt::Result
    ensures { WritesOnOk W.write_str_gives f.old result (turn_words turn) f.new }
{
    let Turn {
        chosen,
        sent,
        length,
        kind,
    } = turn;
    let kind = kind_name(kind);
    match sent {
        Some(Sent { sender, tag }) => write!(
            f,
            "place {chosen} has the turn, place {sender} sends frame {tag} of {length} bytes: {kind}"
        ),
        None => write!(
            f,
            "place {chosen} has the turn, nobody sends, {length} bytes go by: {kind}"
        ),
    }
}

fn channel_name(good: bool) -> &'static str
    ensures { result.now ≡ channel_name good }
{
    if good { "good" } else { "bad" }
}

fn activity(active: bool) -> &'static str
    ensures { result.now ≡ activity active }
{
    if active { "active" } else { "inactive" }
}

// The numbers of a session.
#[derive(Clone, Copy)]
struct Numbers(Standing);

impl fmt::Display for Numbers {
    ghost use Rattle.std.specs.Prelude.{Some};
    ghost use Rattle.console.specs.Replies.{number_words};

    ghost output = { λ n. Some (number_words n.0) };

    fn fmt<W: fmt::Write>(&self, f: &mut fmt::Formatter<W>) -> fmt::Result {
        let Standing {
            rate,
            price,
            virtual_time,
            lag,
            allowance,
            ..
        } = self.0;
        write!(
            f,
            "rate {rate}, price {price}, virtual time {virtual_time}, lag {lag}, allowance {allowance}"
        )
    }
}

/// One line of words and numbers, or the list of all commands.
impl fmt::Display for Reply {
    ghost use Rattle.std.specs.Prelude.{Some};
    ghost use Rattle.console.specs.Replies.{reply_words};

    ghost output = { λ reply. Some (reply_words reply) };

    fn fmt<W: fmt::Write>(&self, f: &mut fmt::Formatter<W>) -> fmt::Result {
        match *self {
            Reply::Done => write!(f, "done"),
            Reply::Turn(turn) => write_turn(f, turn),
            Reply::Session(standing) => {
                let (channel, activity) = (channel_name(standing.good), activity(standing.active));
                let waiting = standing.waiting;
                write!(
                    f,
                    "{}, {channel} channel, {activity}, {waiting} waiting",
                    Numbers(standing)
                )
            }
            Reply::Frame(Some(Frame { tag, length })) => write!(f, "frame {tag} of {length} bytes"),
            Reply::Frame(None) => write!(f, "no frame"),
            Reply::Mark(mark) => write!(f, "mark {mark}"),
            Reply::Booked(booked) => write!(f, "booked {booked}"),
            Reply::Turns(turns) => write!(f, "turns {turns}"),
            Reply::Keep(keep) => write!(f, "keep {keep}"),
            Reply::Count(Some(count)) => write!(f, "count {count}"),
            Reply::Count(None) => write!(f, "nothing is counted there"),
            Reply::Help => f.write_str(HELP),
            Reply::Bye => write!(f, "bye"),
        }
    }
}

/// Makes the call, or answers the question, of a command.
pub fn answer<C: Counted>(cell: &mut Cell<C>, command: Command) -> Result<Reply, Refusal>
    ensures answer { result ≡ reply_to (meant C.Chooser) C.counts (view cell.old) command }
    ensures after { view cell.new ≡ cell_left (meant C.Chooser) (view cell.old) command }
{
    match command {
        Command::Call(made) => call(cell, made).map(Reply::from),
        Command::Session { place } => cell.session(place).map(Reply::Session),
        Command::Frame { place, index } => cell.frame(place, index as usize).map(Reply::Frame),
        Command::Mark => Ok(Reply::Mark(cell.mark())),
        Command::Booked => Ok(Reply::Booked(cell.booked())),
        Command::Turns => Ok(Reply::Turns(cell.turns())),
        Command::Keep => Ok(Reply::Keep(cell.keep())),
        Command::Count { list, place } => {
            Ok(Reply::Count(cell.chooser().counted(list, usize::from(place))))
        }
        Command::Help => Ok(Reply::Help),
        Command::Quit => Ok(Reply::Bye),
    }
}
