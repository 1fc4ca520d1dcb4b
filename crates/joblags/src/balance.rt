// What a lag says.
ghost use Rattle.std.specs.Prelude.{◌≡◌};
ghost use Rattle.joblags.specs.Balances.{balance_of, balance_word};

use std::cmp::Ordering;

// `Ordering` has no words to print.
#[derive(Clone, Copy, PartialEq, Eq, Debug)]
pub(crate) enum Balance {
    // the session is owed bytes
    Owed,
    // it has had more than its own
    Ahead,
    Even,
}

impl From<i64> for Balance {
    ghost from_gives = { λ lag balance. balance ≡ balance_of lag };

    fn from(lag: i64) -> Balance {
        match lag.cmp(&0) {
            Ordering::Greater => Balance::Owed,
            Ordering::Less => Balance::Ahead,
            Ordering::Equal => Balance::Even,
        }
    }
}

impl Balance {
    // One word each, so that every line of a sheet has as many.
    pub(crate) fn word(self) -> &'static str
        ensures { result.now ≡ balance_word self }
    {
        match self {
            Balance::Owed => "owed",
            Balance::Ahead => "ahead",
            Balance::Even => "-",
        }
    }
}
