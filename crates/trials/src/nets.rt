// Nets: the run of docs/LAYERS.md, and the edges of an allowance and of the table.
use constraint::{Bound, Constraint, Step};
use contractor::{Answer, Contractor, Fault, Mark, Rounds};
use net::Net;
use std::process::Abort;
use std::test::Fail;
use tube::Row;

// As in the tests of limits: one line needs no crate.
fn row(low: i32, high: i32) -> Row {
    Row { low, high }
}

// The step 2 = 0 + 1, and bounds on its two parts.
fn three(rounds: u32) -> Result<Net, Fail> {
    let mut net = Net::new(Rounds::new(rounds)?);
    net.push(Constraint::Step(Step::new(0, 0, 1, 2)?))?;
    net.push(Constraint::Bound(Bound::new(1, 0, 0, 0)?))?;
    net.push(Constraint::Bound(Bound::new(2, 1, 3, 5)?))?;
    Ok(net)
}

fn run(rt: &impl Abort, rounds: u32, mark: Mark, calls: u64) -> Result<(), Fail> {
    let mut net = three(rounds)?;
    let mut tube = [row(0, 10); 3];
    assert_eq!(rt; net.contract(&mut tube)?, Answer::kept(mark, calls));
    assert_eq!(rt; tube, [row(0, 0), row(3, 5), row(3, 5)]);
    Ok(())
}

// Seven uses are enough: with an allowance of six one record still waits.
#[test]
fn runs(rt: HostRuntime) -> Result<(), Fail> {
    run(&rt, 2, Mark::Stopped, 6)?;
    run(&rt, 3, Mark::Settled, 7)
}

// One bound narrows, and has to be used again: with one use allowed it still waits, with two it is settled at its allowance.
#[test]
fn edges(rt: HostRuntime) -> Result<(), Fail> {
    let mut one = Net::new(Rounds::new(1)?);
    one.push(Constraint::Bound(Bound::new(1, 0, 0, 4)?))?;
    assert_eq!(rt;
        one.contract(&mut [row(0, 9)])?,
        Answer::kept(Mark::Stopped, 1)
    );
    assert_eq!(rt;
        one.contract(&mut [row(0, 4)])?,
        Answer::kept(Mark::Settled, 1)
    );
    let mut two = Net::new(Rounds::new(2)?);
    two.push(Constraint::Bound(Bound::new(1, 0, 0, 4)?))?;
    assert_eq!(rt;
        two.contract(&mut [row(0, 9)])?,
        Answer::kept(Mark::Settled, 2)
    );
    Ok(())
}

#[test]
fn empties(rt: HostRuntime) -> Result<(), Fail> {
    let mut net = three(3)?;
    net.push(Constraint::Bound(Bound::new(9, 2, 7, 8)?))?;
    let mut tube = [row(0, 10); 3];
    let fault = Fault {
        cause: 2,
        number: 0,
        cell: 2,
        path: 5,
    };
    assert_eq!(rt; net.contract(&mut tube)?, Answer::empty(fault, 5));
    assert_eq!(rt; tube, [row(0, 0), row(3, 5), row(7, 8)]);
    Ok(())
}

#[test]
fn holds_512_records(rt: HostRuntime) -> Result<(), Fail> {
    let mut net = Net::new(Rounds::new(1000)?);
    assert_eq!(rt;
        net.contract(&mut [row(0, 9)])?,
        Answer::kept(Mark::Settled, 0)
    );
    assert!(rt; net.contract(&mut [row(9, 0)]).is_err());
    for _ in 0..512 {
        net.push(Constraint::Bound(Bound::new(1, 0, 0, 9)?))?;
    }
    assert!(rt;
        net.push(Constraint::Bound(Bound::new(2, 0, 0, 9)?))
            .is_err()
    );
    assert_eq!(rt; net.len(), 512);
    assert_eq!(rt; net.ceiling(), 512_000);
    assert_eq!(rt;
        net.contract(&mut [row(0, 9)])?,
        Answer::kept(Mark::Settled, 512)
    );
    net.clear();
    assert_eq!(rt; net.len(), 0);
    assert_eq!(rt; net.need(), 0);
    Ok(())
}
