// Runs of the mixed table with every keep and both choosers, and three that are made for one thing each.
use super::runs::{play, run, stand};
use super::tables::{Given, LARGEST, LEAST, MIXED, Outcome, Step, TWENTY, TWENTY_OUTCOME};
use answer::{Kind, Refusal};
use cell::Cell;
use chooser::Chooser;
use largest_debt::LargestDebt;
use least_served::LeastServed;
use std::process::Abort;
use std::test::Fail;

fn with_every_keep<C: Chooser + Copy + Drop>(
    rt: &impl Abort,
    chooser: C,
    outcomes: &[(u8, Outcome)],
) -> Result<(), Fail> {
    for (keep, outcome) in outcomes {
        run(rt, *keep, chooser, &MIXED, outcome)?;
    }
    Ok(())
}

#[test]
fn largest_debt_with_every_keep(rt: HostRuntime) -> Result<(), Fail> {
    with_every_keep(&rt, LargestDebt, &LARGEST)
}

#[test]
fn least_served_with_every_keep(rt: HostRuntime) -> Result<(), Fail> {
    with_every_keep(&rt, LeastServed::new(), &LEAST)
}

#[test]
fn twenty_depart_in_one_turn(rt: HostRuntime) -> Result<(), Fail> {
    run(&rt, 2, LeastServed::new(), &TWENTY, &TWENTY_OUTCOME)
}

// The worked run of the rules, up to its twelfth call.
#[test]
fn the_worked_run(rt: HostRuntime) -> Result<(), Fail> {
    let steps = [
        Step::Open(0, 360360),
        Step::Open(1, 240240),
        Step::Arrive(0, 1, 100),
        Step::Arrive(0, 2, 100),
        Step::Arrive(1, 3, 101),
        Step::Arrive(1, 4, 50),
        Step::Bad(0),
        Step::Turn,
        Step::Good(0),
        Step::Turn,
        Step::Turn,
        Step::Turn,
    ];
    let outcome = Outcome {
        turns: &[
            Given::Sent(0, 1, 3, 101, Kind::Extra),
            Given::Sent(1, 1, 4, 50, Kind::Normal),
            Given::Sent(1, 0, 1, 100, Kind::Credit),
            Given::Sent(0, 0, 2, 100, Kind::Normal),
        ],
        accounts: &[(0, 402, 0, 0, 0), (1, 450, 0, 300, 0)],
        mark: 450,
    };
    run(&rt, 2, LeastServed::new(), &steps, &outcome)
}

// Two sessions wait at virtual time 0. The only frame of place 0 goes, and it is then ahead of the mark.
#[test]
fn ahead_of_the_mark(rt: HostRuntime) -> Result<(), Fail> {
    let mut cell = Cell::new(2, LargestDebt).map_err(|unmade| unmade.why)?;
    let steps = [
        Step::Open(0, 360360),
        Step::Open(1, 360360),
        Step::Arrive(0, 7, 100),
        Step::Arrive(1, 8, 100),
        Step::Turn,
    ];
    let turns = [Given::Sent(0, 0, 7, 100, Kind::Normal)];
    play(&rt, &mut cell, &steps, &turns)?;
    assert_eq!(rt; cell.close(0), Err(Refusal::AheadOfMark));
    assert_eq!(rt; Refusal::AheadOfMark.number(), 11);
    stand(&rt, &cell, &[(0, 200, 0, 0, 0), (1, 0, 0, 0, 1)])
}
