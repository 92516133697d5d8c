// What the tests share: rows, constraints and answers in few words.
mod making;
mod narrowing;
mod ranges;
mod tubes;

use constraint::{Beacon, Bound, Constraint, Range, Step};
use contractor::{Answer, Contractor, UseRefusal};
use std::process::Abort;
use std::test::Fail;
use tube::{Interval, MakingFault, Row};

// The farthest coordinate, and a cell of which nothing is known.
const W: i32 = Interval::REACH;

const FULL: Row = Row::WIDEST;

// In few words, as in trials: one line needs no crate.
fn row(low: i32, high: i32) -> Row {
    Row { low, high }
}

// The tests of logs have the like. The two crates share the library alone, and three such lines need no crate of their own.
fn bound(number: u16, cell: usize, low: i32, high: i32) -> Result<Constraint, MakingFault> {
    Ok(Constraint::Bound(Bound::new(number, cell, low, high)?))
}

fn step(number: u16, from: usize, by: usize, to: usize) -> Result<Constraint, MakingFault> {
    Ok(Constraint::Step(Step::new(number, from, by, to)?))
}

// A range on the cells x and y, a beacon, and the two distances.
fn range(
    number: u16,
    cells: (usize, usize),
    beacon: (i32, i32),
    distances: (i32, i32),
) -> Result<Constraint, MakingFault> {
    let at = Beacon {
        x: beacon.0,
        y: beacon.1,
    };
    Ok(Constraint::Range(Range::new(number, cells.0, cells.1, at, distances.0, distances.1)?))
}

type Outcome = Result<Answer, UseRefusal>;

fn kept() -> Outcome {
    Ok(Answer::settled())
}

fn empty(cause: u8, number: u16, cell: usize) -> Outcome {
    Ok(Answer::empty_at(cause, number, cell))
}

// One use: what it answers, and what the table then holds.
fn check_use<const N: usize>(
    rt: &impl Abort,
    made: Result<Constraint, MakingFault>,
    before: [Row; N],
    answer: Outcome,
    after: [Row; N],
) -> Result<(), Fail> {
    let mut table = before;
    let mut constraint = made?;
    assert_eq!(rt; constraint.contract(&mut table), answer);
    assert_eq!(rt; table, after);
    Ok(())
}
