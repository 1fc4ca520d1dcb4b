// Who sends in the turn of the chosen session.
use super::rows::row_at;
use super::settle::Roll;
use chooser::{Chooser, ListKind, Place};
use session::Row;

// How the turn of the chosen session goes. It is decided once and read twice, by the turn and by the telling.
#[derive(Clone, Copy)]
pub(crate) enum Way {
    // the chosen sends; it is able and does not lead
    ByRight,
    // it leads, but its allowance lets it send
    ByAllowance,
    // to a place of the credit list: a lagging session is paid back;
    // or of the extra list: the chosen is not able, and a session that is owed nothing uses the turn
    HandedOn(ListKind, Place),
    // it leads beyond its allowance, but nobody is owed
    Unclaimed,
    // nobody is able
    Idle,
}

impl Roll<'_> {
    ghost use Rattle.std.specs.Prelude.{◌≡◌};
    ghost use Rattle.chooser.specs.Meaning.{meant};
    ghost use Rattle.chooser.specs.Places.{numbers};
    ghost use Rattle.model.specs.Calls.{decide as the_decision, way_in};
    ghost use Rattle.model.specs.Lists.{picked_from};
    ghost use Rattle.session.specs.Seen.{seen};
    ghost use Rattle.table.specs.Places.{table_of};
    ghost use Rattle.cell.specs.Ways.{way_as};

    // How the turn of the chosen place goes.
    pub(crate) fn decide<C: Chooser>(&self, chooser: &C, chosen: Place) -> Way
        ensures { way_as result ≡ the_decision (meant C.Chooser) chooser.now
            (table_of self.now.rows.now) chosen.number }
    {
        self.way_of(row_at(self.rows, chosen), chooser)
    }

    // How the turn of the session in `row` goes. The chooser is asked wherever the turn may be
    // handed on; of an empty list it picks nobody.
    fn way_of<C: Chooser>(&self, row: &Row, chooser: &C) -> Way
        ensures { way_as result ≡
            way_in (meant C.Chooser) chooser.now (table_of self.now.rows.now) (seen row.now) }
    {
        if row.able() && !row.leads() {
            return Way::ByRight;
        }
        if row.able() && row.allowance >= 0 {
            return Way::ByAllowance;
        }
        if let Some(place) = self.pick(chooser, ListKind::Credit) {
            return Way::HandedOn(ListKind::Credit, place);
        }
        if row.able() {
            return Way::Unclaimed;
        }
        match self.pick(chooser, ListKind::Extra) {
            Some(place) => Way::HandedOn(ListKind::Extra, place),
            None => Way::Idle,
        }
    }

    // Whom the chooser picks from a list: nobody if nobody stands in it.
    fn pick<C: Chooser>(&self, chooser: &C, list: ListKind) -> Option<Place>
        ensures { numbers result ≡
            picked_from (meant C.Chooser) chooser.now list (table_of self.now.rows.now) }
    {
        chooser.ask(list, &self.all(list)).and_then(Place::new)
    }
}
