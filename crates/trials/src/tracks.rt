// A track of three cells, called with tables of all lengths and allowances at their limits.
use constraint::{Beacon, Bound, Range, Step};
use contractor::{Both, Contractor, Either, Repeat, Rounds};
use std::test::Fail;
use track::{MAX_ALLOWANCE, Proposal, Refused, Rest, TrackRefusal, Used, make};
use tube::{MakingFault, Row};

const ROW: Row = Row { low: 0, high: 20 };

// The calls charged after a use.
#[derive(Clone, Copy, Debug, PartialEq)]
enum Told {
    Kept(u64),
    Emptied(u64),
}

// The number by which a call is refused, if it is.
fn refused<T: Drop>(called: Result<T, TrackRefusal>) -> Option<u8> {
    called.err().map(TrackRefusal::number)
}

// A track of three cells with an allowance, proposing with tables of any lengths.
fn propose(allowance: u64, committed: &[Row], work: &mut [Row]) -> Result<Proposal, TrackRefusal> {
    let rest = make(&[ROW; 3], allowance)?;
    rest.propose(committed, work)
        .map_err(|refused| refused.refusal)
}

// The like with tables of its own length.
fn open(allowance: u64) -> Result<Proposal, TrackRefusal> {
    propose(allowance, &[ROW; 3], &mut [ROW; 3])
}

#[test]
fn makes(rt: HostRuntime) {
    let rows = [ROW; 513];
    assert_eq!(rt; refused(make(&rows[0..0], 1)), Some(7));
    assert_eq!(rt; refused(make(&rows[0..1], 1)), None);
    assert_eq!(rt; refused(make(&rows[0..512], 1)), None);
    assert_eq!(rt; refused(make(&rows, 1)), Some(7));
    assert_eq!(rt; refused(make(&rows[0..1], 0)), Some(11));
    assert_eq!(rt; refused(make(&rows[0..1], MAX_ALLOWANCE)), None);
    assert_eq!(rt; refused(make(&rows[0..1], MAX_ALLOWANCE + 1)), Some(11));
    assert_eq!(rt; refused(make(&rows[0..0], 0)), Some(7));
}

// A track of three cells, proposing with tables of other lengths.
fn proposing(committed: &[Row], work: &mut [Row]) -> Result<Rest, TrackRefusal> {
    let proposal = propose(10, committed, work)?;
    Ok(proposal.withdraw())
}

#[test]
fn proposes(rt: HostRuntime) {
    assert_eq!(rt; refused(proposing(&[ROW; 3], &mut [ROW; 3])), None);
    assert_eq!(rt; refused(proposing(&[ROW; 0], &mut [ROW; 3])), Some(10));
    assert_eq!(rt; refused(proposing(&[ROW; 2], &mut [ROW; 3])), Some(10));
    assert_eq!(rt; refused(proposing(&[ROW; 4], &mut [ROW; 3])), Some(10));
    assert_eq!(rt; refused(proposing(&[ROW; 3], &mut [ROW; 0])), Some(10));
    assert_eq!(rt; refused(proposing(&[ROW; 3], &mut [ROW; 2])), Some(10));
    assert_eq!(rt; refused(proposing(&[ROW; 3], &mut [ROW; 4])), Some(10));
}

// A track of three cells that commits with tables of other lengths.
fn committing(committed: &mut [Row], work: &[Row]) -> Result<Rest, TrackRefusal> {
    open(10)?.commit(committed, work).map_err(|refused| {
        let Refused { standing, refusal } = refused;
        let _ = standing.withdraw();
        refusal
    })
}

#[test]
fn commits(rt: HostRuntime) {
    let other = Row { low: 5, high: 6 };
    assert_eq!(rt; refused(committing(&mut [ROW; 2], &[other; 3])), Some(10));
    assert_eq!(rt; refused(committing(&mut [ROW; 4], &[other; 3])), Some(10));
    let mut rows = [ROW; 3];
    assert_eq!(rt; refused(committing(&mut rows, &[other; 2])), Some(10));
    assert_eq!(rt; rows, [ROW; 3]);
    assert_eq!(rt; refused(committing(&mut rows, &[other; 3])), None);
    assert_eq!(rt; rows, [other; 3]);
}

// A track of three cells with an allowance, one use on the work table that is handed in, and its end.
fn using<C: Contractor>(
    allowance: u64,
    contractor: &mut C,
    work: &mut [Row],
) -> Result<Told, TrackRefusal> {
    match open(allowance)?.apply(contractor, work) {
        Ok(Used::Kept(proposal, _)) => Ok(Told::Kept(proposal.withdraw().charged())),
        Ok(Used::Emptied(emptied)) => {
            let (_, rest) = emptied.close();
            Ok(Told::Emptied(rest.charged()))
        }
        Err(refused) => {
            let Refused { standing, refusal } = refused;
            match standing.withdraw().charged() {
                0 => Err(refusal),
                // A refused use that is charged is none.
                charged => Ok(Told::Kept(charged)),
            }
        }
    }
}

#[test]
fn uses(rt: HostRuntime) -> Result<(), Fail> {
    let mut cut = Bound::new(1, 2, 5, 9)?;
    let mut none = Bound::new(2, 2, 30, 40)?;
    let mut far = Bound::new(3, 3, 5, 9)?;
    let mut rows = [ROW; 3];
    assert_eq!(rt; using(1, &mut none, &mut rows)?, Told::Emptied(1));
    assert_eq!(rt; rows, [ROW; 3]);
    assert_eq!(rt; using(1, &mut cut, &mut rows)?, Told::Kept(1));
    assert_eq!(rt; rows, [ROW, ROW, Row { low: 5, high: 9 }]);
    assert_eq!(rt; refused(using(1, &mut far, &mut [ROW; 3])), Some(7));
    assert_eq!(rt; refused(using(1, &mut far, &mut [ROW; 4])), Some(10));
    assert_eq!(rt; refused(using(1, &mut cut, &mut [ROW; 0])), Some(7));
    Ok(())
}

// A table that its caller changed into no tube stays as it is.
#[test]
fn refuses_a_table_that_is_no_tube(rt: HostRuntime) -> Result<(), Fail> {
    let bad = Row { low: 9, high: 5 };
    let mut cut = Bound::new(1, 2, 5, 9)?;
    let mut rows = [bad, ROW, ROW];
    assert_eq!(rt; refused(using(1, &mut cut, &mut rows)), Some(7));
    assert_eq!(rt; rows, [bad, ROW, ROW]);
    Ok(())
}

fn five_from(x: i32) -> Result<Range, MakingFault> {
    Range::new(8, 0, 1, Beacon { x, y: 0 }, 5, 5)
}

// Three rounds over a step and a union of two ranges: at most nine calls.
#[test]
fn affords(rt: HostRuntime) -> Result<(), Fail> {
    let rounds = Rounds::new(3)?;
    let part = Both {
        first: Step::new(7, 0, 1, 2)?,
        second: Either {
            first: five_from(0)?,
            second: five_from(20)?,
        },
    };
    let mut pile = Repeat { rounds, part };
    assert_eq!(rt; pile.ceiling(), 9);
    assert_eq!(rt; pile.height(), 3);
    assert_eq!(rt; refused(using(8, &mut pile, &mut [ROW; 3])), Some(12));
    assert_eq!(rt; refused(using(9, &mut pile, &mut [ROW; 3])), None);
    Ok(())
}
