// The turn is carried out: a frame leaves its queue, the chosen session is charged, and who used
// whose turn is written down.
ghost use Rattle.std.specs.Prelude.{◌≡◌, ℕ, IfSome, ◌≢◌, slice_set};
ghost use Rattle.model.specs.Sound.{HasRoom};
ghost use Rattle.model.specs.Table.{at};
ghost use Rattle.model.specs.Turn.{first_frame, answer_of, turned, sends, hands_on, takes_up};
ghost use Rattle.model.specs.Turn.{charged};
ghost use Rattle.session.specs.Seen.{seen};
ghost use Rattle.table.specs.Places.{table_of};
ghost use Rattle.cell.specs.Ways.{way_as, handed_to, turn_with, idle_turn};

use super::decide::Way;
use super::rows::{Placed, row_at, set_row};
use account::Account;
use answer::{Kind, Sent, Turn};
use chooser::{ListKind, PLACES, Place};
use queue::Frame;
use session::Row;

// The quarters of a charge: as many as a leading session can keep of it, and as a turn kept by
// allowance spends.
pub(crate) const QUARTERS: u8 = 4;

// The bytes for which a turn is charged in which nobody sends.
const IDLE_LENGTH: u16 = 256;

// What is sent in the turn of the chosen place, and what that makes of the accounts.
#[tactic(auto, using(crate::proofs::Turning::on_lists))]
pub(crate) fn carry_out(rows: &mut [Row; PLACES], keep: u8, chosen: Place, way: Way) -> Turn
    requires other { IfSome (handed_to (way_as way)) (λ q. chosen.number ≢ q) }
    requires room { (j : ℕ) → HasRoom (at (table_of rows.old) j) }
    ensures answer { result ≡ answer_of (table_of rows.old) chosen.number (way_as way) }
    ensures after { table_of rows.new ≡
        turned keep (table_of rows.old) chosen.number result.length (way_as way) }
{
    let chosen = account_at(rows, chosen);
    match way {
        Way::ByRight => chosen.send(keep, 0, Kind::Normal, rows),
        Way::ByAllowance => chosen.send(keep, QUARTERS, Kind::Normal, rows),
        Way::HandedOn(list, place) => {
            let kind = match list {
                ListKind::Credit => Kind::Credit,
                ListKind::Extra => Kind::Extra,
            };
            chosen.hand_to(account_at(rows, place), keep, kind, rows)
        }
        Way::Unclaimed => chosen.send(keep, 0, Kind::Kept, rows),
        Way::Idle => chosen.idle(keep, rows),
    }
}

// The account of the session at a place.
fn account_at(rows: &[Row; PLACES], place: Place) -> Placed<Account>
    requires { (j : ℕ) → HasRoom (at (table_of rows.now) j) }
    ensures place { result.place ≡ place }
    ensures account { seen result.held.row ≡ at (table_of rows.now) place.number }
{
    let row = *row_at(rows, place);
    Placed {
        place,
        held: Account { row },
    }
}

impl Placed<Account> {
    // The chosen session sends; `spent` is what that costs its allowance.
    fn send(self, keep: u8, spent: u8, kind: Kind, rows: &mut [Row; PLACES]) -> Turn
        ensures answer { result ≡ turn_with self.place.number self.place.number
            (first_frame (seen self.held.row).queue) kind }
        ensures after { table_of rows.new ≡ slice_set (table_of rows.old) self.place.number
            (sends keep spent result.length (seen self.held.row)) }
    {
        let (frame, row) = self.held.send(keep, spent);
        set_row(rows, self.place, row);
        sent(self.place, self.place, frame, kind)
    }

    // Another session uses the turn: the chosen is owed the bytes that the sender has had.
    fn hand_to(
        self,
        sender: Placed<Account>,
        keep: u8,
        kind: Kind,
        rows: &mut [Row; PLACES],
    ) -> Turn
        ensures answer { result ≡ turn_with self.place.number sender.place.number
            (first_frame (seen sender.held.row).queue) kind }
        ensures after { table_of rows.new ≡
            slice_set (slice_set (table_of rows.old) self.place.number
            (hands_on keep result.length (seen self.held.row)))
            sender.place.number (takes_up result.length (seen sender.held.row)) }
    {
        let (frame, row) = sender.held.take_up();
        set_row(rows, self.place, self.held.hand_on(keep, frame.length));
        set_row(rows, sender.place, row);
        sent(self.place, sender.place, frame, kind)
    }

    // Nobody can send.
    fn idle(self, keep: u8, rows: &mut [Row; PLACES]) -> Turn
        ensures answer { result ≡ idle_turn self.place.number }
        ensures after { table_of rows.new ≡ slice_set (table_of rows.old) self.place.number
            (charged keep 0 result.length (seen self.held.row)) }
    {
        set_row(rows, self.place, self.held.idle(keep, IDLE_LENGTH));
        Turn {
            chosen: self.place.number(),
            sent: None,
            length: IDLE_LENGTH,
            kind: Kind::Idle,
        }
    }
}

fn sent(chosen: Place, sender: Place, frame: Frame, kind: Kind) -> Turn
    ensures { result ≡ turn_with chosen.number sender.number frame kind }
{
    let sent = Sent {
        sender: sender.number(),
        tag: frame.tag,
    };
    Turn {
        chosen: chosen.number(),
        sent: Some(sent),
        length: frame.length,
        kind,
    }
}
