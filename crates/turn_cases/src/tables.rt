// Runs with their turns and the accounts at their end, worked out by an independent player of the rules.
use Given::{Nobody, Refused, Sent};
use answer::Kind::{self, Credit, Extra, Kept, Normal};
use answer::Refusal::{self, NoneActive};
use answer::Turn;

// One call. A run is a table and no row of closures: it is played with each keep and chooser, whose cells are of two types.
// No `Call` of `record`: that would put the names of its parts into each row, `Call::Arrive { place: 3, length: 1535, tag: 1 }`.
#[derive(Clone, Copy)]
pub(crate) enum Step {
    // place, rate
    Open(u8, u32),
    Close(u8),
    // place, tag, length
    Arrive(u8, u32, u16),
    Good(u8),
    Bad(u8),
    Turn,
}

// What a turn gives, its parts in order: a `Turn` and its `Sent` would put six names into each row of a table.
#[derive(Clone, Copy)]
pub(crate) enum Given {
    // chosen place, sender, tag, length
    Sent(u8, u8, u32, u16, Kind),
    // chosen place, length
    Nobody(u8, u16),
    Refused(Refusal),
}

impl Given {
    // The answer of a cell that says it. No `From`: `Result::from` would not say whose answer it is.
    pub(crate) fn answer(self) -> Result<Turn, Refusal> {
        match self {
            Given::Sent(chosen, sender, tag, length, kind) => Ok(Turn {
                chosen,
                sent: Some(answer::Sent { sender, tag }),
                length,
                kind,
            }),
            Given::Nobody(chosen, length) => Ok(Turn {
                chosen,
                sent: None,
                length,
                kind: Kind::Idle,
            }),
            Given::Refused(why) => Err(why),
        }
    }
}

// Place, virtual time, lag, allowance and how many frames wait: a row of a table, named once and not in each of 60 rows.
pub(crate) type Account = (u8, u64, i64, i64, usize);

// What comes of a run.
#[derive(Clone, Copy)]
pub(crate) struct Outcome<'a> {
    pub(crate) turns: &'a [Given],
    pub(crate) accounts: &'a [Account],
    pub(crate) mark: u64,
}

// Four sessions whose channels come and go: every kind of turn, odd lags that are shared, leads that end by it.

#[rattlefmt::skip]
pub(crate) static MIXED: [Step; 120] = [
    Step::Open(0, 180180), Step::Open(1, 45045), Step::Open(2, 20020), Step::Open(3, 18018), Step::Bad(0),
    Step::Turn, Step::Arrive(3, 1, 1535), Step::Turn, Step::Turn, Step::Turn, Step::Turn, Step::Turn,
    Step::Turn, Step::Turn, Step::Turn, Step::Turn, Step::Bad(3), Step::Good(0), Step::Arrive(2, 2, 33),
    Step::Turn, Step::Arrive(2, 3, 7), Step::Turn, Step::Turn, Step::Arrive(2, 4, 100), Step::Turn,
    Step::Arrive(2, 5, 7), Step::Bad(0), Step::Turn, Step::Bad(2), Step::Turn, Step::Turn, Step::Turn,
    Step::Turn, Step::Turn, Step::Bad(1), Step::Arrive(3, 6, 1535), Step::Turn, Step::Turn,
    Step::Arrive(1, 7, 640), Step::Turn, Step::Turn, Step::Arrive(3, 8, 1536), Step::Arrive(1, 9, 7),
    Step::Good(2), Step::Arrive(1, 10, 255), Step::Arrive(2, 11, 255), Step::Arrive(1, 12, 7),
    Step::Arrive(0, 13, 255), Step::Arrive(3, 14, 1536), Step::Arrive(0, 15, 33), Step::Turn, Step::Bad(2),
    Step::Arrive(0, 16, 640), Step::Good(0), Step::Turn, Step::Turn, Step::Good(1), Step::Arrive(1, 17, 7),
    Step::Arrive(1, 18, 7), Step::Turn, Step::Turn, Step::Turn, Step::Arrive(1, 19, 1535), Step::Turn,
    Step::Turn, Step::Arrive(0, 20, 33), Step::Turn, Step::Turn, Step::Turn, Step::Arrive(3, 21, 7),
    Step::Turn, Step::Arrive(2, 22, 255), Step::Turn, Step::Turn, Step::Turn, Step::Arrive(2, 23, 7),
    Step::Arrive(3, 24, 100), Step::Good(3), Step::Bad(3), Step::Bad(1), Step::Arrive(2, 25, 1536),
    Step::Arrive(0, 26, 640), Step::Arrive(1, 27, 640), Step::Arrive(3, 28, 100), Step::Turn,
    Step::Arrive(1, 29, 7), Step::Arrive(0, 30, 255), Step::Good(1), Step::Arrive(0, 31, 7),
    Step::Arrive(1, 32, 100), Step::Turn, Step::Turn, Step::Turn, Step::Turn, Step::Turn, Step::Turn,
    Step::Arrive(0, 33, 1), Step::Arrive(2, 34, 1), Step::Turn, Step::Arrive(0, 35, 640), Step::Bad(1),
    Step::Turn, Step::Bad(0), Step::Turn, Step::Turn, Step::Turn, Step::Arrive(2, 36, 1536), Step::Turn,
    Step::Arrive(1, 37, 7), Step::Arrive(2, 38, 1), Step::Turn, Step::Arrive(2, 39, 7), Step::Good(1),
    Step::Turn, Step::Good(0), Step::Good(2), Step::Good(3), Step::Turn, Step::Turn, Step::Turn,
];

// What comes of it with each keep, when the largest debt is chosen.

#[rattlefmt::skip]
pub(crate) static LARGEST: [(u8, Outcome); 5] = [
    (0, Outcome {
        turns: &[
            Refused(NoneActive), Sent(3, 3, 1, 1535, Normal), Refused(NoneActive), Refused(NoneActive),
            Refused(NoneActive), Refused(NoneActive), Refused(NoneActive), Refused(NoneActive),
            Refused(NoneActive), Refused(NoneActive), Sent(2, 2, 2, 33, Normal),
            Sent(2, 2, 3, 7, Normal), Refused(NoneActive), Sent(2, 2, 4, 100, Normal),
            Sent(2, 2, 5, 7, Normal), Refused(NoneActive), Refused(NoneActive), Refused(NoneActive),
            Refused(NoneActive), Refused(NoneActive), Nobody(3, 256), Nobody(3, 256), Nobody(1, 256),
            Nobody(3, 256), Sent(0, 2, 11, 255, Extra), Sent(1, 0, 13, 255, Credit),
            Sent(2, 0, 15, 33, Extra), Sent(0, 0, 16, 640, Normal), Sent(2, 1, 7, 640, Credit),
            Sent(1, 1, 9, 7, Normal), Sent(1, 1, 10, 255, Kept), Sent(3, 1, 12, 7, Extra),
            Sent(0, 0, 20, 33, Normal), Sent(3, 1, 17, 7, Extra), Sent(3, 1, 18, 7, Extra),
            Sent(3, 1, 19, 1535, Extra), Nobody(1, 256), Nobody(1, 256), Nobody(1, 256),
            Sent(0, 0, 26, 640, Normal), Sent(1, 1, 27, 640, Kept), Sent(0, 0, 30, 255, Normal),
            Sent(0, 0, 31, 7, Normal), Sent(2, 1, 29, 7, Extra), Sent(2, 1, 32, 100, Extra),
            Nobody(2, 256), Sent(0, 0, 33, 1, Normal), Sent(1, 0, 35, 640, Extra), Nobody(0, 256),
            Nobody(0, 256), Nobody(0, 256), Nobody(0, 256), Nobody(0, 256), Sent(0, 1, 37, 7, Extra),
            Sent(0, 3, 6, 1535, Credit), Sent(2, 2, 22, 255, Normal), Sent(1, 3, 8, 1536, Credit),
        ],
        accounts: &[
            (0, 133360, 0, 0, 0), (1, 156884, 0, -448, 0), (2, 137744, 789, 0, 6),
            (3, 159652, -789, 0, 4),
        ],
        mark: 137744,
    }),
    (1, Outcome {
        turns: &[
            Refused(NoneActive), Sent(3, 3, 1, 1535, Normal), Refused(NoneActive), Refused(NoneActive),
            Refused(NoneActive), Refused(NoneActive), Refused(NoneActive), Refused(NoneActive),
            Refused(NoneActive), Refused(NoneActive), Sent(2, 2, 2, 33, Normal),
            Sent(2, 2, 3, 7, Normal), Refused(NoneActive), Sent(2, 2, 4, 100, Normal),
            Sent(2, 2, 5, 7, Normal), Refused(NoneActive), Refused(NoneActive), Refused(NoneActive),
            Refused(NoneActive), Refused(NoneActive), Nobody(3, 256), Nobody(3, 256), Nobody(1, 256),
            Nobody(3, 256), Sent(0, 2, 11, 255, Extra), Sent(1, 0, 13, 255, Credit),
            Sent(2, 0, 15, 33, Extra), Sent(0, 0, 16, 640, Normal), Sent(2, 1, 7, 640, Credit),
            Sent(1, 1, 9, 7, Normal), Sent(1, 1, 10, 255, Kept), Sent(3, 1, 12, 7, Extra),
            Sent(0, 0, 20, 33, Normal), Sent(3, 1, 17, 7, Extra), Sent(3, 1, 18, 7, Extra),
            Sent(3, 1, 19, 1535, Extra), Nobody(1, 256), Nobody(1, 256), Nobody(1, 256),
            Sent(0, 0, 26, 640, Normal), Sent(1, 1, 27, 640, Normal), Sent(0, 0, 30, 255, Normal),
            Sent(0, 0, 31, 7, Normal), Sent(2, 1, 29, 7, Extra), Sent(2, 1, 32, 100, Extra),
            Nobody(2, 256), Sent(0, 0, 33, 1, Normal), Sent(1, 0, 35, 640, Extra), Nobody(0, 256),
            Nobody(0, 256), Nobody(0, 256), Nobody(0, 256), Nobody(0, 256), Sent(0, 1, 37, 7, Extra),
            Sent(0, 3, 6, 1535, Credit), Sent(2, 2, 22, 255, Normal), Sent(1, 3, 8, 1536, Credit),
        ],
        accounts: &[
            (0, 133360, 0, 11288, 0), (1, 156884, 0, 20128, 0), (2, 137744, 789, 24228, 6),
            (3, 159652, -789, 0, 4),
        ],
        mark: 137744,
    }),
    (2, Outcome {
        turns: &[
            Refused(NoneActive), Sent(3, 3, 1, 1535, Normal), Refused(NoneActive), Refused(NoneActive),
            Refused(NoneActive), Refused(NoneActive), Refused(NoneActive), Refused(NoneActive),
            Refused(NoneActive), Refused(NoneActive), Sent(2, 2, 2, 33, Normal),
            Sent(2, 2, 3, 7, Normal), Refused(NoneActive), Sent(2, 2, 4, 100, Normal),
            Sent(2, 2, 5, 7, Normal), Refused(NoneActive), Refused(NoneActive), Refused(NoneActive),
            Refused(NoneActive), Refused(NoneActive), Nobody(3, 256), Nobody(3, 256), Nobody(1, 256),
            Nobody(3, 256), Sent(0, 2, 11, 255, Extra), Sent(1, 0, 13, 255, Credit),
            Sent(2, 0, 15, 33, Extra), Sent(0, 0, 16, 640, Normal), Sent(2, 1, 7, 640, Credit),
            Sent(1, 1, 9, 7, Normal), Sent(1, 1, 10, 255, Kept), Sent(3, 1, 12, 7, Extra),
            Sent(0, 0, 20, 33, Normal), Sent(3, 1, 17, 7, Extra), Sent(3, 1, 18, 7, Extra),
            Sent(3, 1, 19, 1535, Extra), Nobody(1, 256), Nobody(1, 256), Nobody(1, 256),
            Sent(0, 0, 26, 640, Normal), Sent(1, 1, 27, 640, Normal), Sent(0, 0, 30, 255, Normal),
            Sent(0, 0, 31, 7, Normal), Sent(2, 1, 29, 7, Extra), Sent(2, 1, 32, 100, Extra),
            Nobody(2, 256), Sent(0, 0, 33, 1, Normal), Sent(1, 0, 35, 640, Extra), Nobody(0, 256),
            Nobody(0, 256), Nobody(0, 256), Nobody(0, 256), Nobody(0, 256), Sent(0, 1, 37, 7, Extra),
            Sent(0, 3, 6, 1535, Credit), Sent(2, 2, 22, 255, Normal), Sent(1, 3, 8, 1536, Credit),
        ],
        accounts: &[
            (0, 133360, 0, 22576, 0), (1, 156884, 0, 81664, 0), (2, 137744, 789, 48456, 6),
            (3, 159652, -789, 0, 4),
        ],
        mark: 137744,
    }),
    (3, Outcome {
        turns: &[
            Refused(NoneActive), Sent(3, 3, 1, 1535, Normal), Refused(NoneActive), Refused(NoneActive),
            Refused(NoneActive), Refused(NoneActive), Refused(NoneActive), Refused(NoneActive),
            Refused(NoneActive), Refused(NoneActive), Sent(2, 2, 2, 33, Normal),
            Sent(2, 2, 3, 7, Normal), Refused(NoneActive), Sent(2, 2, 4, 100, Normal),
            Sent(2, 2, 5, 7, Normal), Refused(NoneActive), Refused(NoneActive), Refused(NoneActive),
            Refused(NoneActive), Refused(NoneActive), Nobody(3, 256), Nobody(3, 256), Nobody(1, 256),
            Nobody(3, 256), Sent(0, 2, 11, 255, Extra), Sent(1, 0, 13, 255, Credit),
            Sent(2, 0, 15, 33, Extra), Sent(0, 0, 16, 640, Normal), Sent(2, 1, 7, 640, Credit),
            Sent(1, 1, 9, 7, Normal), Sent(1, 1, 10, 255, Kept), Sent(3, 1, 12, 7, Extra),
            Sent(0, 0, 20, 33, Normal), Sent(3, 1, 17, 7, Extra), Sent(3, 1, 18, 7, Extra),
            Sent(3, 1, 19, 1535, Extra), Nobody(1, 256), Nobody(1, 256), Nobody(1, 256),
            Sent(0, 0, 26, 640, Normal), Sent(1, 1, 27, 640, Normal), Sent(0, 0, 30, 255, Normal),
            Sent(0, 0, 31, 7, Normal), Sent(2, 1, 29, 7, Extra), Sent(2, 1, 32, 100, Extra),
            Nobody(2, 256), Sent(0, 0, 33, 1, Normal), Sent(1, 0, 35, 640, Extra), Nobody(0, 256),
            Nobody(0, 256), Nobody(0, 256), Nobody(0, 256), Nobody(0, 256), Sent(0, 1, 37, 7, Extra),
            Sent(0, 3, 6, 1535, Credit), Sent(2, 2, 22, 255, Normal), Sent(1, 3, 8, 1536, Credit),
        ],
        accounts: &[
            (0, 133360, 0, 33864, 0), (1, 156884, 0, 143200, 0), (2, 137744, 789, 72684, 6),
            (3, 159652, -789, 0, 4),
        ],
        mark: 137744,
    }),
    (4, Outcome {
        turns: &[
            Refused(NoneActive), Sent(3, 3, 1, 1535, Normal), Refused(NoneActive), Refused(NoneActive),
            Refused(NoneActive), Refused(NoneActive), Refused(NoneActive), Refused(NoneActive),
            Refused(NoneActive), Refused(NoneActive), Sent(2, 2, 2, 33, Normal),
            Sent(2, 2, 3, 7, Normal), Refused(NoneActive), Sent(2, 2, 4, 100, Normal),
            Sent(2, 2, 5, 7, Normal), Refused(NoneActive), Refused(NoneActive), Refused(NoneActive),
            Refused(NoneActive), Refused(NoneActive), Nobody(3, 256), Nobody(3, 256), Nobody(1, 256),
            Nobody(3, 256), Sent(0, 2, 11, 255, Extra), Sent(1, 0, 13, 255, Credit),
            Sent(2, 0, 15, 33, Extra), Sent(0, 0, 16, 640, Normal), Sent(2, 1, 7, 640, Credit),
            Sent(1, 1, 9, 7, Normal), Sent(1, 1, 10, 255, Normal), Sent(3, 1, 12, 7, Extra),
            Sent(0, 0, 20, 33, Normal), Sent(3, 1, 17, 7, Extra), Sent(3, 1, 18, 7, Extra),
            Sent(3, 1, 19, 1535, Extra), Nobody(1, 256), Nobody(1, 256), Nobody(1, 256),
            Sent(0, 0, 26, 640, Normal), Sent(1, 1, 27, 640, Normal), Sent(0, 0, 30, 255, Normal),
            Sent(0, 0, 31, 7, Normal), Sent(2, 1, 29, 7, Extra), Sent(2, 1, 32, 100, Extra),
            Nobody(2, 256), Sent(0, 0, 33, 1, Normal), Sent(1, 0, 35, 640, Extra), Nobody(0, 256),
            Nobody(0, 256), Nobody(0, 256), Nobody(0, 256), Nobody(0, 256), Sent(0, 1, 37, 7, Extra),
            Sent(0, 3, 6, 1535, Credit), Sent(2, 2, 22, 255, Normal), Sent(1, 3, 8, 1536, Credit),
        ],
        accounts: &[
            (0, 133360, 0, 45152, 0), (1, 156884, 0, 188416, 0), (2, 137744, 789, 96912, 6),
            (3, 159652, -789, 0, 4),
        ],
        mark: 137744,
    }),
];

// The same, when the least served is chosen.

#[rattlefmt::skip]
pub(crate) static LEAST: [(u8, Outcome); 5] = [
    (0, Outcome {
        turns: &[
            Refused(NoneActive), Sent(3, 3, 1, 1535, Normal), Refused(NoneActive), Refused(NoneActive),
            Refused(NoneActive), Refused(NoneActive), Refused(NoneActive), Refused(NoneActive),
            Refused(NoneActive), Refused(NoneActive), Sent(2, 2, 2, 33, Normal),
            Sent(2, 2, 3, 7, Normal), Refused(NoneActive), Sent(2, 2, 4, 100, Normal),
            Sent(2, 2, 5, 7, Normal), Refused(NoneActive), Refused(NoneActive), Refused(NoneActive),
            Refused(NoneActive), Refused(NoneActive), Nobody(3, 256), Nobody(3, 256), Nobody(1, 256),
            Nobody(3, 256), Sent(0, 2, 11, 255, Extra), Sent(1, 0, 13, 255, Credit),
            Sent(2, 0, 15, 33, Extra), Sent(0, 0, 16, 640, Normal), Sent(2, 1, 7, 640, Credit),
            Sent(1, 1, 9, 7, Normal), Sent(1, 1, 10, 255, Kept), Sent(3, 1, 12, 7, Extra),
            Sent(0, 0, 20, 33, Normal), Sent(3, 1, 17, 7, Extra), Sent(3, 1, 18, 7, Extra),
            Sent(3, 1, 19, 1535, Extra), Nobody(1, 256), Nobody(1, 256), Nobody(1, 256),
            Sent(0, 0, 26, 640, Normal), Sent(1, 1, 27, 640, Kept), Sent(0, 0, 30, 255, Normal),
            Sent(0, 0, 31, 7, Normal), Sent(2, 1, 29, 7, Extra), Sent(2, 1, 32, 100, Extra),
            Nobody(2, 256), Sent(0, 0, 33, 1, Normal), Sent(1, 0, 35, 640, Extra), Nobody(0, 256),
            Nobody(0, 256), Nobody(0, 256), Nobody(0, 256), Nobody(0, 256), Sent(0, 1, 37, 7, Extra),
            Sent(0, 2, 22, 255, Credit), Sent(0, 3, 6, 1535, Credit), Sent(2, 2, 23, 7, Normal),
        ],
        accounts: &[
            (0, 134380, 0, 0, 0), (1, 132308, -513, -448, 0), (2, 128816, 131, 0, 5),
            (3, 159652, 382, 0, 5),
        ],
        mark: 128816,
    }),
    (1, Outcome {
        turns: &[
            Refused(NoneActive), Sent(3, 3, 1, 1535, Normal), Refused(NoneActive), Refused(NoneActive),
            Refused(NoneActive), Refused(NoneActive), Refused(NoneActive), Refused(NoneActive),
            Refused(NoneActive), Refused(NoneActive), Sent(2, 2, 2, 33, Normal),
            Sent(2, 2, 3, 7, Normal), Refused(NoneActive), Sent(2, 2, 4, 100, Normal),
            Sent(2, 2, 5, 7, Normal), Refused(NoneActive), Refused(NoneActive), Refused(NoneActive),
            Refused(NoneActive), Refused(NoneActive), Nobody(3, 256), Nobody(3, 256), Nobody(1, 256),
            Nobody(3, 256), Sent(0, 2, 11, 255, Extra), Sent(1, 0, 13, 255, Credit),
            Sent(2, 0, 15, 33, Extra), Sent(0, 0, 16, 640, Normal), Sent(2, 1, 7, 640, Credit),
            Sent(1, 1, 9, 7, Normal), Sent(1, 1, 10, 255, Kept), Sent(3, 1, 12, 7, Extra),
            Sent(0, 0, 20, 33, Normal), Sent(3, 1, 17, 7, Extra), Sent(3, 1, 18, 7, Extra),
            Sent(3, 1, 19, 1535, Extra), Nobody(1, 256), Nobody(1, 256), Nobody(1, 256),
            Sent(0, 0, 26, 640, Normal), Sent(1, 1, 27, 640, Normal), Sent(0, 0, 30, 255, Normal),
            Sent(0, 0, 31, 7, Normal), Sent(2, 1, 29, 7, Extra), Sent(2, 1, 32, 100, Extra),
            Nobody(2, 256), Sent(0, 0, 33, 1, Normal), Sent(1, 0, 35, 640, Extra), Nobody(0, 256),
            Nobody(0, 256), Nobody(0, 256), Nobody(0, 256), Nobody(0, 256), Sent(0, 1, 37, 7, Extra),
            Sent(0, 2, 22, 255, Credit), Sent(0, 3, 6, 1535, Credit), Sent(2, 2, 23, 7, Normal),
        ],
        accounts: &[
            (0, 134380, 0, 12308, 0), (1, 132308, -513, -4448, 0), (2, 128816, 131, 0, 5),
            (3, 159652, 382, 0, 5),
        ],
        mark: 128816,
    }),
    (2, Outcome {
        turns: &[
            Refused(NoneActive), Sent(3, 3, 1, 1535, Normal), Refused(NoneActive), Refused(NoneActive),
            Refused(NoneActive), Refused(NoneActive), Refused(NoneActive), Refused(NoneActive),
            Refused(NoneActive), Refused(NoneActive), Sent(2, 2, 2, 33, Normal),
            Sent(2, 2, 3, 7, Normal), Refused(NoneActive), Sent(2, 2, 4, 100, Normal),
            Sent(2, 2, 5, 7, Normal), Refused(NoneActive), Refused(NoneActive), Refused(NoneActive),
            Refused(NoneActive), Refused(NoneActive), Nobody(3, 256), Nobody(3, 256), Nobody(1, 256),
            Nobody(3, 256), Sent(0, 2, 11, 255, Extra), Sent(1, 0, 13, 255, Credit),
            Sent(2, 0, 15, 33, Extra), Sent(0, 0, 16, 640, Normal), Sent(2, 1, 7, 640, Credit),
            Sent(1, 1, 9, 7, Normal), Sent(1, 1, 10, 255, Kept), Sent(3, 1, 12, 7, Extra),
            Sent(0, 0, 20, 33, Normal), Sent(3, 1, 17, 7, Extra), Sent(3, 1, 18, 7, Extra),
            Sent(3, 1, 19, 1535, Extra), Nobody(1, 256), Nobody(1, 256), Nobody(1, 256),
            Sent(0, 0, 26, 640, Normal), Sent(1, 1, 27, 640, Normal), Sent(0, 0, 30, 255, Normal),
            Sent(0, 0, 31, 7, Normal), Sent(2, 1, 29, 7, Extra), Sent(2, 1, 32, 100, Extra),
            Nobody(2, 256), Sent(0, 0, 33, 1, Normal), Sent(1, 0, 35, 640, Extra), Nobody(0, 256),
            Nobody(0, 256), Nobody(0, 256), Nobody(0, 256), Nobody(0, 256), Sent(0, 1, 37, 7, Extra),
            Sent(0, 2, 22, 255, Credit), Sent(0, 3, 6, 1535, Credit), Sent(2, 2, 23, 7, Normal),
        ],
        accounts: &[
            (0, 134380, 0, 24616, 0), (1, 132308, -513, 32512, 0), (2, 128816, 131, 0, 5),
            (3, 159652, 382, 0, 5),
        ],
        mark: 128816,
    }),
    (3, Outcome {
        turns: &[
            Refused(NoneActive), Sent(3, 3, 1, 1535, Normal), Refused(NoneActive), Refused(NoneActive),
            Refused(NoneActive), Refused(NoneActive), Refused(NoneActive), Refused(NoneActive),
            Refused(NoneActive), Refused(NoneActive), Sent(2, 2, 2, 33, Normal),
            Sent(2, 2, 3, 7, Normal), Refused(NoneActive), Sent(2, 2, 4, 100, Normal),
            Sent(2, 2, 5, 7, Normal), Refused(NoneActive), Refused(NoneActive), Refused(NoneActive),
            Refused(NoneActive), Refused(NoneActive), Nobody(3, 256), Nobody(3, 256), Nobody(1, 256),
            Nobody(3, 256), Sent(0, 2, 11, 255, Extra), Sent(1, 0, 13, 255, Credit),
            Sent(2, 0, 15, 33, Extra), Sent(0, 0, 16, 640, Normal), Sent(2, 1, 7, 640, Credit),
            Sent(1, 1, 9, 7, Normal), Sent(1, 1, 10, 255, Kept), Sent(3, 1, 12, 7, Extra),
            Sent(0, 0, 20, 33, Normal), Sent(3, 1, 17, 7, Extra), Sent(3, 1, 18, 7, Extra),
            Sent(3, 1, 19, 1535, Extra), Nobody(1, 256), Nobody(1, 256), Nobody(1, 256),
            Sent(0, 0, 26, 640, Normal), Sent(1, 1, 27, 640, Normal), Sent(0, 0, 30, 255, Normal),
            Sent(0, 0, 31, 7, Normal), Sent(2, 1, 29, 7, Extra), Sent(2, 1, 32, 100, Extra),
            Nobody(2, 256), Sent(0, 0, 33, 1, Normal), Sent(1, 0, 35, 640, Extra), Nobody(0, 256),
            Nobody(0, 256), Nobody(0, 256), Nobody(0, 256), Nobody(0, 256), Sent(0, 1, 37, 7, Extra),
            Sent(0, 2, 22, 255, Credit), Sent(0, 3, 6, 1535, Credit), Sent(2, 2, 23, 7, Normal),
        ],
        accounts: &[
            (0, 134380, 0, 36924, 0), (1, 132308, -513, 69472, 0), (2, 128816, 131, 0, 5),
            (3, 159652, 382, 0, 5),
        ],
        mark: 128816,
    }),
    (4, Outcome {
        turns: &[
            Refused(NoneActive), Sent(3, 3, 1, 1535, Normal), Refused(NoneActive), Refused(NoneActive),
            Refused(NoneActive), Refused(NoneActive), Refused(NoneActive), Refused(NoneActive),
            Refused(NoneActive), Refused(NoneActive), Sent(2, 2, 2, 33, Normal),
            Sent(2, 2, 3, 7, Normal), Refused(NoneActive), Sent(2, 2, 4, 100, Normal),
            Sent(2, 2, 5, 7, Normal), Refused(NoneActive), Refused(NoneActive), Refused(NoneActive),
            Refused(NoneActive), Refused(NoneActive), Nobody(3, 256), Nobody(3, 256), Nobody(1, 256),
            Nobody(3, 256), Sent(0, 2, 11, 255, Extra), Sent(1, 0, 13, 255, Credit),
            Sent(2, 0, 15, 33, Extra), Sent(0, 0, 16, 640, Normal), Sent(2, 1, 7, 640, Credit),
            Sent(1, 1, 9, 7, Normal), Sent(1, 1, 10, 255, Normal), Sent(3, 1, 12, 7, Extra),
            Sent(0, 0, 20, 33, Normal), Sent(3, 1, 17, 7, Extra), Sent(3, 1, 18, 7, Extra),
            Sent(3, 1, 19, 1535, Extra), Nobody(1, 256), Nobody(1, 256), Nobody(1, 256),
            Sent(0, 0, 26, 640, Normal), Sent(1, 1, 27, 640, Normal), Sent(0, 0, 30, 255, Normal),
            Sent(0, 0, 31, 7, Normal), Sent(2, 1, 29, 7, Extra), Sent(2, 1, 32, 100, Extra),
            Nobody(2, 256), Sent(0, 0, 33, 1, Normal), Sent(1, 0, 35, 640, Extra), Nobody(0, 256),
            Nobody(0, 256), Nobody(0, 256), Nobody(0, 256), Nobody(0, 256), Sent(0, 1, 37, 7, Extra),
            Sent(0, 2, 22, 255, Credit), Sent(0, 3, 6, 1535, Credit), Sent(2, 2, 23, 7, Normal),
        ],
        accounts: &[
            (0, 134380, 0, 49232, 0), (1, 132308, -513, 90112, 0), (2, 128816, 131, 0, 5),
            (3, 159652, 382, 0, 5),
        ],
        mark: 128816,
    }),
];

// Place 0 fades while nineteen others send in its turns; when its last frame goes, all twenty depart.

#[rattlefmt::skip]
pub(crate) static TWENTY: [Step; 81] = [
    Step::Open(0, 360360), Step::Open(1, 18018), Step::Open(2, 18018), Step::Open(3, 18018),
    Step::Open(4, 18018), Step::Open(5, 18018), Step::Open(6, 18018), Step::Open(7, 18018),
    Step::Open(8, 18018), Step::Open(9, 18018), Step::Open(10, 18018), Step::Open(11, 18018),
    Step::Open(12, 18018), Step::Open(13, 18018), Step::Open(14, 18018), Step::Open(15, 18018),
    Step::Open(16, 18018), Step::Open(17, 18018), Step::Open(18, 18018), Step::Open(19, 18018), Step::Bad(0),
    Step::Arrive(0, 1, 50), Step::Arrive(1, 101, 100), Step::Turn, Step::Turn, Step::Arrive(2, 102, 100),
    Step::Turn, Step::Turn, Step::Arrive(3, 103, 100), Step::Turn, Step::Turn, Step::Arrive(4, 104, 100),
    Step::Turn, Step::Turn, Step::Arrive(5, 105, 100), Step::Turn, Step::Turn, Step::Arrive(6, 106, 100),
    Step::Turn, Step::Turn, Step::Arrive(7, 107, 100), Step::Turn, Step::Turn, Step::Arrive(8, 108, 100),
    Step::Turn, Step::Turn, Step::Arrive(9, 109, 100), Step::Turn, Step::Turn, Step::Arrive(10, 110, 100),
    Step::Turn, Step::Turn, Step::Arrive(11, 111, 100), Step::Turn, Step::Turn, Step::Arrive(12, 112, 100),
    Step::Turn, Step::Turn, Step::Arrive(13, 113, 100), Step::Turn, Step::Turn, Step::Arrive(14, 114, 100),
    Step::Turn, Step::Turn, Step::Arrive(15, 115, 100), Step::Turn, Step::Turn, Step::Arrive(16, 116, 100),
    Step::Turn, Step::Turn, Step::Arrive(17, 117, 100), Step::Turn, Step::Turn, Step::Arrive(18, 118, 100),
    Step::Turn, Step::Turn, Step::Arrive(19, 119, 100), Step::Turn, Step::Turn, Step::Good(0), Step::Turn,
];

#[rattlefmt::skip]
pub(crate) static TWENTY_OUTCOME: Outcome = Outcome {
    turns: &[
        Sent(0, 1, 101, 100, Extra), Nobody(1, 256), Sent(0, 2, 102, 100, Extra), Nobody(2, 256),
        Sent(0, 3, 103, 100, Extra), Nobody(3, 256), Sent(0, 4, 104, 100, Extra), Nobody(4, 256),
        Sent(0, 5, 105, 100, Extra), Nobody(5, 256), Sent(0, 6, 106, 100, Extra), Nobody(6, 256),
        Sent(0, 7, 107, 100, Extra), Nobody(7, 256), Sent(0, 8, 108, 100, Extra), Nobody(8, 256),
        Sent(0, 9, 109, 100, Extra), Nobody(9, 256), Sent(0, 10, 110, 100, Extra), Nobody(10, 256),
        Sent(0, 11, 111, 100, Extra), Nobody(11, 256), Sent(0, 12, 112, 100, Extra), Nobody(12, 256),
        Sent(0, 13, 113, 100, Extra), Nobody(13, 256), Sent(0, 14, 114, 100, Extra), Nobody(14, 256),
        Sent(0, 15, 115, 100, Extra), Nobody(15, 256), Sent(0, 16, 116, 100, Extra), Nobody(16, 256),
        Sent(0, 17, 117, 100, Extra), Nobody(17, 256), Sent(0, 18, 118, 100, Extra), Nobody(18, 256),
        Sent(0, 19, 119, 100, Extra), Nobody(19, 256), Sent(0, 0, 1, 50, Normal),
    ],
    accounts: &[
        (0, 3900, 0, 0, 0), (1, 10240, 0, 20480, 0), (2, 10440, 0, 20480, 0), (3, 10640, 0, 20480, 0),
        (4, 10840, 0, 20480, 0), (5, 11040, 0, 20480, 0), (6, 11240, 0, 20480, 0),
        (7, 11440, 0, 20480, 0), (8, 11640, 0, 20480, 0), (9, 11840, 0, 20480, 0),
        (10, 12040, 0, 20480, 0), (11, 12240, 0, 20480, 0), (12, 12440, 0, 20480, 0),
        (13, 12640, 0, 20480, 0), (14, 12840, 0, 20480, 0), (15, 13040, 0, 20480, 0),
        (16, 13240, 0, 20480, 0), (17, 13440, 0, 20480, 0), (18, 13640, 0, 20480, 0),
        (19, 13840, 0, 20480, 0),
    ],
    mark: 13840,
};
