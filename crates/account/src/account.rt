// What a turn adds to the numbers of a session, and takes from them.
ghost use Rattle.std.specs.Prelude.{◌≡◌, ◌*◌, ◌^◌, ◌<◌};
ghost use Rattle.model.specs.Sound.{HasRoom};
ghost use Rattle.session.specs.Seen.{seen};

use queue::Frame;
use session::Row;

/// A session whose numbers have room for whatever one more turn adds to them.
#[derive(Clone, Copy, Debug)]
pub struct Account {
    /// The session's place.
    pub row: Row,
    ghost room: { HasRoom (seen row) },
}

/// The parts that a session can have in a turn. `keep` is the cell's: how many of the four quarters
/// of a charge a leading session's allowance earns.
impl Account {
    ghost use Rattle.model.specs.Turn.{first_frame, allowed, charged, repaid};
    ghost use Rattle.model.specs.Turn.{sends, hands_on, takes_up};

    /// Sends its first frame in its own turn; while it leads, that costs its allowance `spent`
    /// quarters of the charge.
    pub fn send(mut self, keep: u8, spent: u8) -> (Frame, Row)
        ensures frame { result.0 ≡ first_frame (seen self.row).queue }
        ensures after { seen result.1 ≡ sends keep spent result.0.length (seen self.row) }
    {
        let frame = self.row.pop();
        (frame, self.charged(keep, spent, frame.length))
    }

    /// Hands its turn on: it is charged for the turn, and owed the bytes that another sends in it.
    pub fn hand_on(self, keep: u8, bytes: u16) -> Row
        ensures { seen result ≡ hands_on keep bytes (seen self.row) }
    {
        let mut row = self.charged(keep, 0, bytes);
        row.lag += i64::from(bytes);
        row
    }

    /// Sends its first frame in another's turn, and has had those bytes.
    pub fn take_up(mut self) -> (Frame, Row)
        ensures frame { result.0 ≡ first_frame (seen self.row).queue }
        ensures after { seen result.1 ≡ takes_up result.0.length (seen self.row) }
    {
        let frame = self.row.pop();
        (frame, self.repaid(frame.length))
    }

    /// Has a turn in which nobody sends, and is charged for `length` bytes all the same.
    pub fn idle(self, keep: u8, length: u16) -> Row
        ensures { seen result ≡ charged keep 0 length (seen self.row) }
    {
        self.charged(keep, 0, length)
    }

    // Charged for a turn of so many bytes. While it leads, its allowance earns `keep` quarters of
    // the charge and pays `spent`.
    fn charged(self, keep: u8, spent: u8, bytes: u16) -> Row
        ensures { seen result ≡ charged keep spent bytes (seen self.row) }
    {
        let mut row = self.row;
        let charge = cost(bytes, row.price);
        row.allowance = self.allowance(keep, spent, charge);
        row.virtual_time += charge;
        row
    }

    // What its allowance becomes by a charge: it moves only while its session leads.
    fn allowance(&self, keep: u8, spent: u8, charge: u64) -> i64
        requires { charge < 2 ^ 48 }
        ensures { result ≡ allowed keep spent charge (seen self.now.row) }
    {
        if self.row.leads() {
            self.row.allowance + times(keep, charge) as i64 - times(spent, charge) as i64
        } else {
            self.row.allowance
        }
    }

    // It has had so many bytes. Whoever begins to lead begins with no allowance.
    fn repaid(self, bytes: u16) -> Row
        ensures { seen result ≡ repaid bytes (seen self.row) }
    {
        let mut row = self.row;
        let lag = row.lag - i64::from(bytes);
        if !row.leads() && lag < 0 {
            row.allowance = 0;
        }
        row.lag = lag;
        row
    }
}

fn cost(bytes: u16, price: u32) -> u64
    ensures is { result ≡ bytes * price }
    ensures most { result < 2 ^ 48 }
{
    u64::from(bytes) * u64::from(price)
}

// A product as well, but of numbers with other bounds, which the sums above rely on.
fn times(parts: u8, charge: u64) -> u64
    requires { charge < 2 ^ 48 }
    ensures is { result ≡ parts * charge }
    ensures most { result < 2 ^ 56 }
{
    u64::from(parts) * charge
}
