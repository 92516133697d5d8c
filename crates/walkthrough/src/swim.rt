// The swim of the tour: three gates, two slices between them, and eleven records built by hand.
use constraint::{Beacon, Bound, Constraint, Range, Step};
use std::alloc::Global;
use tube::Row;

// The positions at the gates, x first, and then the steps of the slices.
pub const CELLS: usize = 10;

// A cell of which nothing is known.
pub const ANYWHERE: Row = Row::WIDEST;

pub(crate) fn cell_name(cell: usize) -> &'static str {
    match cell {
        0 => "x at gate 0",
        1 => "x at gate 1",
        2 => "x at gate 2",
        3 => "y at gate 0",
        4 => "y at gate 1",
        5 => "y at gate 2",
        6 => "x step of slice 0",
        7 => "x step of slice 1",
        8 => "y step of slice 0",
        9 => "y step of slice 1",
        _ => "no cell of this swim",
    }
}

// A record of the swim, and what it says in words.
#[derive(Clone, Copy)]
pub(crate) struct Record {
    pub(crate) says: &'static str,
    pub(crate) constraint: Constraint,
}

fn step(
    says: &'static str,
    number: u16,
    from: usize,
    by: usize,
    to: usize,
) -> anyhow::Result<Record> {
    let constraint = Constraint::Step(Step::new(number, from, by, to)?);
    Ok(Record { says, constraint })
}

fn bound(
    says: &'static str,
    number: u16,
    cell: usize,
    low: i32,
    high: i32,
) -> anyhow::Result<Record> {
    let constraint = Constraint::Bound(Bound::new(number, cell, low, high)?);
    Ok(Record { says, constraint })
}

// What every swim has: each position is the one before it plus the step of the slice between them.
fn push_motion(records: &mut Vec<Record>) -> anyhow::Result<()> {
    records.push(step("gate 1 is gate 0 plus slice 0, x", 0, 0, 6, 1)?)?;
    records.push(step("gate 2 is gate 1 plus slice 1, x", 1, 1, 7, 2)?)?;
    records.push(step("gate 1 is gate 0 plus slice 0, y", 2, 3, 8, 4)?)?;
    records.push(step("gate 2 is gate 1 plus slice 1, y", 3, 4, 9, 5)?)?;
    Ok(())
}

// What this robot measured, in millimetres.
fn push_measured(records: &mut Vec<Record>) -> anyhow::Result<()> {
    records.push(bound("the fix at the start, x", 4, 0, 0, 0)?)?;
    records.push(bound("the fix at the start, y", 5, 3, 0, 0)?)?;
    records.push(bound("the first step, along the wall", 6, 6, 2950, 3050)?)?;
    records.push(bound("the second step, along the wall", 7, 7, 2950, 3050)?)?;
    records.push(bound("the first step, off the wall", 8, 8, -30, 30)?)?;
    records.push(bound("the second step, off the wall", 9, 9, -30, 30)?)?;
    let beacon = Beacon { x: 6000, y: 4000 };
    records.push(Record {
        says: "the distance to the beacon at gate 2",
        constraint: Constraint::Range(Range::new(10, 2, 5, beacon, 3990, 4005)?),
    })?;
    Ok(())
}

pub(crate) fn records(heap: Global) -> anyhow::Result<Vec<Record>> {
    let mut records = Vec::new(heap);
    push_motion(&mut records)?;
    push_measured(&mut records)?;
    Ok(records)
}
