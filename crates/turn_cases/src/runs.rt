// Playing a run, and comparing its turns and its accounts.
use super::tables::{Account, Given, Outcome, Step};
use cell::Cell;
use chooser::Chooser;
use queue::Frame;
use std::process::Abort;
use std::test::Fail;

pub(crate) fn play<C: Chooser>(
    rt: &impl Abort,
    cell: &mut Cell<C>,
    steps: &[Step],
    turns: &[Given],
) -> Result<(), Fail> {
    let mut answers = turns.iter().copied().map(Given::answer);
    for step in steps {
        match *step {
            Step::Open(place, rate) => cell.open(place, rate)?,
            Step::Close(place) => cell.close(place)?,
            Step::Arrive(place, tag, length) => cell.arrive(place, Frame { tag, length })?,
            Step::Good(place) => cell.report(place, true)?,
            Step::Bad(place) => cell.report(place, false)?,
            Step::Turn => assert_eq!(rt; Some(cell.turn()), answers.next()),
        }
    }
    assert_eq!(rt; answers.next(), None);
    Ok(())
}

pub(crate) fn stand<C>(rt: &impl Abort, cell: &Cell<C>, accounts: &[Account]) -> Result<(), Fail> {
    for &(place, virtual_time, lag, allowance, waiting) in accounts {
        let session = cell.session(place)?;
        assert_eq!(rt; session.virtual_time, virtual_time);
        assert_eq!(rt; session.lag, lag);
        assert_eq!(rt; session.allowance, allowance);
        assert_eq!(rt; session.waiting, waiting);
    }
    Ok(())
}

// The run of a new cell, and where it ends.
pub(crate) fn run<C: Chooser + Drop>(
    rt: &impl Abort,
    keep: u8,
    chooser: C,
    steps: &[Step],
    outcome: &Outcome,
) -> Result<(), Fail> {
    let mut cell = Cell::new(keep, chooser).map_err(|unmade| unmade.why)?;
    play(rt, &mut cell, steps, outcome.turns)?;
    stand(rt, &cell, outcome.accounts)?;
    assert_eq!(rt; cell.mark(), outcome.mark);
    Ok(())
}
