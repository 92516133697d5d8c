// Two nets that hold something already, before and after a log is read into them.
use super::*;
use std::process::Abort;

// The like stands in the tests of limits. The two crates share the library alone, and three such lines need no crate of their own.
fn bounds(number: u16, cell: usize, low: i32, high: i32) -> Result<Constraint, Fail> {
    Ok(Constraint::Bound(Bound::new(number, cell, low, high)?))
}

fn steps(number: u16, from: usize, by: usize, to: usize) -> Result<Constraint, Fail> {
    Ok(Constraint::Step(Step::new(number, from, by, to)?))
}

fn ranges(
    number: u16,
    x: usize,
    y: usize,
    beacon: (i32, i32),
    nearest: i32,
    farthest: i32,
) -> Result<Constraint, Fail> {
    let at = Beacon {
        x: beacon.0,
        y: beacon.1,
    };
    Ok(Constraint::Range(Range::new(number, x, y, at, nearest, farthest)?))
}

// A net of so many rounds, with two records.
fn filled(rounds: u32) -> Result<Net, Fail> {
    let mut net = Net::new(Rounds::new(rounds)?);
    net.push(bounds(70, 7, 1, 2)?)?;
    net.push(ranges(71, 8, 9, (1, 2), 3, 4)?)?;
    Ok(net)
}

fn check_net(rt: &impl Abort, net: &Net, rounds: u32, records: &[Constraint]) {
    assert_eq!(rt; net.rounds().get(), rounds);
    assert_eq!(rt; net.records(), records);
}

// A log that is refused leaves two nets as they were.
fn check_refused(rt: &impl Abort, bytes: &[u8], number: u8, record: u16) -> Result<(), Fail> {
    let mut one = filled(5)?;
    let mut two = filled(6)?;
    let read = read_log(bytes, &mut one, &mut two);
    assert_eq!(rt; told(read), telling(Some(number), record));
    check_net(rt, &one, 5, filled(1)?.records());
    check_net(rt, &two, 6, filled(1)?.records());
    Ok(())
}

#[test]
fn refused_logs(rt: HostRuntime) -> Result<(), Fail> {
    check_refused(&rt, &[], 13, 0)?;
    check_refused(&rt, &[129, 0, 0, 0], 13, 0)?;
    check_refused(&rt, &[2, 0, 0, 0, 0], 14, 0)?;
    for number in [15, 16, 17] {
        let bytes = log(
            rt.alloc(),
            2,
            &[
                refused_by(None),
                distance(1, (0, 0), 3, 4),
                refused_by(Some(number)),
            ],
        )?;
        check_refused(&rt, bytes.as_slice(), number, 2)?;
    }
    Ok(())
}

// A log that is taken replaces the records of two nets, and not their rounds.
fn check_taken(
    rt: &impl Abort,
    bytes: &[u8],
    cells: usize,
    first: &[Constraint],
    second: &[Constraint],
) -> Result<(), Fail> {
    let mut one = filled(5)?;
    let mut two = filled(6)?;
    let sizes = read_log(bytes, &mut one, &mut two)?;
    assert_eq!(rt; sizes.cells(), cells);
    check_net(rt, &one, 5, first);
    check_net(rt, &two, 6, second);
    Ok(())
}

#[test]
fn two_gates_fill(rt: HostRuntime) -> Result<(), Fail> {
    let bytes = two_gates(rt.alloc(), 6, 6)?;
    let first = [
        steps(0, 0, 4, 1)?,
        steps(1, 2, 5, 3)?,
        bounds(2, 0, 0, 0)?,
        bounds(3, 2, 0, 0)?,
        bounds(4, 4, 3, 5)?,
        bounds(5, 5, 0, 0)?,
    ];
    let second = [ranges(6, 1, 3, (10, 0), 6, 6)?];
    check_taken(&rt, bytes.as_slice(), 6, &first, &second)
}

// Records of all kinds in turn: each keeps its number in the log, whichever net it goes to.
#[test]
fn three_gates_fill(rt: HostRuntime) -> Result<(), Fail> {
    let bytes = log(
        rt.alloc(),
        3,
        &[
            distance(2, (-1, -2), 3, 4),
            step(1, 1, -5, 5),
            position(1, 2, -7, -6),
            distance(0, (8, 9), 0, 1),
            step(0, 0, 0, 1),
        ],
    )?;
    let first = [
        steps(0, 0, 6, 1)?,
        steps(1, 1, 7, 2)?,
        steps(2, 3, 8, 4)?,
        steps(3, 4, 9, 5)?,
        bounds(5, 9, -5, 5)?,
        bounds(6, 5, -7, -6)?,
        bounds(8, 6, 0, 1)?,
    ];
    let second = [
        ranges(4, 2, 5, (-1, -2), 3, 4)?,
        ranges(7, 0, 3, (8, 9), 0, 1)?,
    ];
    check_taken(&rt, bytes.as_slice(), 10, &first, &second)
}

// One gate has no step; with no record both nets are then empty.
#[test]
fn one_gate_fills_nothing(rt: HostRuntime) -> Result<(), Fail> {
    check_taken(&rt, &[1, 0, 0, 0], 2, &[], &[])
}
