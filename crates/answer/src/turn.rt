// What an accepted call answers.
ghost use Rattle.std.specs.Prelude.{◌≡◌};
ghost use Rattle.answer.specs.Names.{kind_byte};

/// By which rule a turn was given away.
#[derive(Clone, Copy, PartialEq, Eq, Debug)]
pub enum Kind {
    /// The chosen session sends in its own turn.
    Normal,
    /// A lagging session is paid back.
    Credit,
    /// A leading session keeps the turn, since nobody is owed.
    Kept,
    /// A session that is owed nothing uses a turn that would be lost.
    Extra,
    /// Nobody can send.
    Idle,
}

/// The letter by which a line names it: n, c, k, x or i.
impl From<Kind> for u8 {
    ghost from_gives = { λ kind byte. byte ≡ kind_byte kind };

    fn from(kind: Kind) -> u8 {
        match kind {
            Kind::Normal => b'n',
            Kind::Credit => b'c',
            Kind::Kept => b'k',
            Kind::Extra => b'x',
            Kind::Idle => b'i',
        }
    }
}

/// The place that sent, 0 to 63, and the tag of its frame. A place is a number here, as a line and C show it: all would
/// ask a `Place` for it.
#[derive(Clone, Copy, PartialEq, Eq, Debug)]
pub struct Sent {
    /// The place.
    pub sender: u8,
    /// The tag that its frame came with.
    pub tag: u32,
}

/// What a turn came to.
#[derive(Clone, Copy, PartialEq, Eq, Debug)]
pub struct Turn {
    /// The place whose turn it was, 0 to 63.
    pub chosen: u8,
    /// Who sent what in it, if anybody could.
    pub sent: Option<Sent>,
    /// How many bytes the turn took.
    pub length: u16,
    /// By which rule.
    pub kind: Kind,
}

/// The answer of an accepted call. No `Option<Turn>`: a call that is done has an answer, and its line says `ok`.
#[derive(Clone, Copy, PartialEq, Eq, Debug)]
pub enum Answer {
    /// The call is done.
    Done,
    /// The turn was given away.
    Turn(Turn),
}
