// What every call does last: the mark follows the table, and the chooser is told who joined a list.
ghost use Rattle.std.specs.Prelude.{◌≡◌, length};
ghost use Rattle.model.specs.Limits.{places};
ghost use Rattle.cell.specs.Offerable.{Offerable};
ghost use Rattle.table.specs.Places.{table_of};

use super::rows::{Placed, row_at};
use chooser::{Chooser, ListKind, Offer, PLACES};
use session::Row;
use table::{anybody_joined, mark_after, members, nobody_active, stayed};

// What a turn has to know of the table that it found: who stood in which list, and whether nobody
// was active.
#[derive(Clone, Copy)]
pub(crate) struct Before {
    credit: [bool; PLACES],
    extra: [bool; PLACES],
    idle: bool,
}

impl Before {
    ghost use Rattle.cell.specs.Found.{before_of};

    pub(crate) fn look(rows: &[Row; PLACES]) -> Before
        ensures { result ≡ before_of (table_of rows.now) }
    {
        Before {
            credit: members(rows, ListKind::Credit),
            extra: members(rows, ListKind::Extra),
            idle: nobody_active(rows),
        }
    }
}

// The places as a chooser is to hear of them: whoever is in a list of them can be offered. How many
// there are is said too, since a proof is not told it of a field.
#[derive(Clone, Copy)]
pub(crate) struct Roll<'a> {
    pub(crate) rows: &'a [Row; PLACES],
    ghost sized: { length rows.now ≡ places },
    ghost fair: { Offerable (table_of rows.now) },
}

// What a chooser is offered.
impl Roll<'_> {
    ghost use Rattle.model.specs.Lists.{offer, stayed};

    // Those who stood in a list before and still do.
    fn stayed(&self, list: ListKind, before: &[bool; PLACES]) -> Offer
        ensures { result.entries ≡ stayed list before.now (table_of self.now.rows.now) }
    {
        let entries = stayed(self.rows, list, before);
        Offer { entries }
    }

    // All who stand in a list.
    pub(crate) fn all(&self, list: ListKind) -> Offer
        ensures { result.entries ≡ offer list (table_of self.now.rows.now) }
    {
        self.stayed(list, &[true; PLACES])
    }
}

// What it is told.
impl Roll<'_> {
    ghost use Rattle.chooser.specs.Meaning.{meant};
    ghost use Rattle.chooser.specs.Tellings.{told_all};
    ghost use Rattle.model.specs.Cell.{joins};
    ghost use Rattle.session.specs.Seen.{seen};
    ghost use Rattle.cell.specs.Found.{mark_left, joins_left, joins_by};

    // Tells of all who joined a list, credit before extra, and answers where the mark is then.
    #[tactic(auto, using(crate::proofs::Joining::told_both))]
    pub(crate) fn settle<C: Chooser>(&self, chooser: &mut C, before: &Before, mark: u64) -> u64
        ensures mark { result ≡ mark_left before.now (table_of self.now.rows.now) mark }
        ensures told { chooser.new ≡ told_all (meant C.Chooser) chooser.old
            (joins_left before.now (table_of self.now.rows.now)) }
    {
        self.tell(chooser, ListKind::Credit, &before.credit);
        self.tell(chooser, ListKind::Extra, &before.extra);
        mark_after(self.rows, before.idle, mark)
    }

    // Tells who joined a list. In most calls nobody does, and then no offer is made.
    #[tactic(auto, using(crate::proofs::Joining::nobody_joins))]
    fn tell<C: Chooser>(&self, chooser: &mut C, list: ListKind, before: &[bool; PLACES])
        ensures { chooser.new ≡ told_all (meant C.Chooser) chooser.old
            (joins list before.now (table_of self.now.rows.now)) }
    {
        if anybody_joined(self.rows, list, before) {
            self.tell_each(chooser, list, before);
        }
    }

    // Tells of each place that is in a list now and was not, in ascending place.
    fn tell_each<C: Chooser>(&self, chooser: &mut C, list: ListKind, before: &[bool; PLACES])
        ensures { chooser.new ≡ told_all (meant C.Chooser) chooser.old
            (joins list before.now (table_of self.now.rows.now)) }
    {
        let stay = self.stayed(list, before);
        let rows = self.rows;
        for (place, (row, was)) in rows.iter().zip(before).enumerate() {
            if !was && row.stands_in(list) {
                chooser.joined(list, place, &stay);
            }
        }
    }

    // Tells of the place at which a row is going to be put, if it joins a list by that. Whoever is
    // in the list now, stays.
    #[tactic(auto, using(crate::proofs::Joining::tells_of))]
    pub(crate) fn tell_of<C: Chooser>(&self, chooser: &mut C, list: ListKind, placed: &Placed<Row>)
        ensures { chooser.new ≡ told_all (meant C.Chooser) chooser.old
            (joins_by list (table_of self.now.rows.now) placed.now.place.number
            (seen placed.now.held)) }
    {
        if placed.held.stands_in(list) && !row_at(self.rows, placed.place).stands_in(list) {
            chooser.joined(list, placed.place.index(), &self.all(list));
        }
    }
}
