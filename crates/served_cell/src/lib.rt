//! A cell that is made with a new least served, and what is promised of it besides.
#![tactic(auto)]

ghost use Rattle.std.specs.Prelude.{◌≡◌};
ghost use Rattle.std.specs.Result.{result_map_both};
ghost use Rattle.cell.specs.View.{view};
ghost use Rattle.least_served.specs.Served.{unserved};
ghost use Rattle.model.specs.Calls.{make, new};
ghost use Rattle.served_cell.specs.Promised.{Promised};

use answer::Refusal;
use cell::Cell;
use least_served::LeastServed;

/// A new cell with a new least served, whose leading sessions keep so many quarters of each charge.
/// A keep above 4 is refused (16). Whatever is called on the cell from here on, it keeps its
/// promises, and no count of its chooser reaches the stop.
pub fn new_cell(keep: u8) -> Result<Cell<LeastServed>, Refusal>
    ensures made { result_map_both view (λ why. why) result ≡ make keep unserved }
    ensures promised { Promised (new keep unserved) }
{
    Cell::new(keep, LeastServed::new()).map_err(|unmade| unmade.why)
}
