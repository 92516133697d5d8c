// Unions, repetitions and deep piles of bounds.
use constraint::Bound;
use contractor::{Answer, Both, Contractor, Either, Fault, Mark, Repeat, Rounds};
use std::process::Abort;
use std::test::Fail;
use tube::{MakingFault, Row};

fn bound(number: u16, low: i32, high: i32) -> Result<Bound, MakingFault> {
    Bound::new(number, 0, low, high)
}

fn empty(number: u16, path: u64, calls: u64) -> Answer {
    Answer::empty(
        Fault {
            cause: 1,
            number,
            cell: 0,
            path,
        },
        calls,
    )
}

// A union of two bounds on a cell 0..10: what it answers and what is left.
fn union(
    rt: &impl Abort,
    first: Bound,
    second: Bound,
    answer: Answer,
    low: i32,
    high: i32,
) -> Result<(), Fail> {
    let mut tube = [Row { low: 0, high: 10 }];
    let mut union = Either { first, second };
    assert_eq!(rt; union.contract(&mut tube)?, answer);
    assert_eq!(rt; tube, [Row { low, high }]);
    Ok(())
}

#[test]
fn unions(rt: HostRuntime) -> Result<(), Fail> {
    union(
        &rt,
        bound(1, 0, 2)?,
        bound(2, 5, 6)?,
        Answer::kept(Mark::Settled, 2),
        0,
        6,
    )?;
    union(
        &rt,
        bound(1, 20, 30)?,
        bound(2, 5, 6)?,
        Answer::kept(Mark::Settled, 2),
        5,
        6,
    )?;
    union(
        &rt,
        bound(1, 0, 2)?,
        bound(2, 20, 30)?,
        Answer::kept(Mark::Settled, 2),
        0,
        2,
    )?;
    union(
        &rt,
        bound(1, 20, 30)?,
        bound(2, 40, 50)?,
        empty(1, 3, 2),
        0,
        10,
    )
}

// Rounds of a composition of two bounds.
fn rounds(rt: &impl Abort, count: u32, answer: Answer) -> Result<(), Fail> {
    let mut tube = [Row { low: 0, high: 10 }];
    let part = Both {
        first: bound(1, 2, 20)?,
        second: bound(2, 0, 5)?,
    };
    let mut pile = Repeat {
        rounds: Rounds::new(count)?,
        part,
    };
    assert_eq!(rt; pile.contract(&mut tube)?, answer);
    assert_eq!(rt; tube, [Row { low: 2, high: 5 }]);
    Ok(())
}

#[test]
fn repetitions(rt: HostRuntime) -> Result<(), Fail> {
    // The only round changes a cell; the last of two, and the second of three, change none.
    rounds(&rt, 1, Answer::kept(Mark::Stopped, 2))?;
    rounds(&rt, 2, Answer::kept(Mark::Settled, 4))?;
    rounds(&rt, 3, Answer::kept(Mark::Settled, 4))
}

#[test]
fn counts_of_rounds(rt: HostRuntime) {
    assert!(rt; Rounds::new(0).is_err());
    assert!(rt; Rounds::new(1).is_ok());
    assert!(rt; Rounds::new(1000).is_ok());
    assert!(rt; Rounds::new(1001).is_err());
}

#[test]
fn ceilings(rt: HostRuntime) -> Result<(), Fail> {
    let thousand = Rounds::new(1000)?;
    let million = Repeat {
        rounds: thousand,
        part: Repeat {
            rounds: thousand,
            part: bound(1, 0, 9)?,
        },
    };
    let mut most = Repeat {
        rounds: thousand,
        part: million,
    };
    assert_eq!(rt; most.ceiling(), 1_000_000_000);
    assert_eq!(rt;
        most.contract(&mut [Row { low: 0, high: 9 }])?,
        Answer::kept(Mark::Settled, 1)
    );
    let mut past = Both {
        first: most,
        second: bound(2, 0, 9)?,
    };
    assert_eq!(rt; past.ceiling(), 1_000_000_001);
    assert!(rt; past.contract(&mut [Row { low: 0, high: 9 }]).is_err());
    Ok(())
}
