// Which uses are refused, and what the layers make of figures at their limits.
use crate::idle::Idle;
use contractor::{Both, Contractor, Repeat, Rounds, UseRefusal};
use std::test::Fail;
use tube::Row;

const ROW: Row = Row { low: 0, high: 9 };

// The number by which a use on a table is refused, if it is.
fn refused<C: Contractor>(contractor: &mut C, table: &mut [Row]) -> Option<u8> {
    contractor.contract(table).err().map(UseRefusal::number)
}

fn idle(need: usize, height: u8, ceiling: u64) -> Result<Idle, Fail> {
    Idle::new(need, height, ceiling).ok_or_else(|| Fail::new("figures beyond their limits"))
}

#[test]
fn refusals(rt: HostRuntime) -> Result<(), Fail> {
    assert_eq!(rt;
        refused(&mut idle(512, 16, 1_000_000_000)?, &mut [ROW; 512]),
        None
    );
    assert_eq!(rt; refused(&mut idle(512, 0, 0)?, &mut [ROW; 511]), Some(7));
    assert_eq!(rt; refused(&mut idle(513, 0, 0)?, &mut [ROW; 512]), Some(7));
    assert_eq!(rt; refused(&mut idle(0, 0, 0)?, &mut [ROW; 0]), Some(7));
    assert_eq!(rt; refused(&mut idle(0, 17, 0)?, &mut [ROW; 1]), Some(8));
    assert_eq!(rt;
        refused(&mut idle(0, 0, 1_000_000_001)?, &mut [ROW; 1]),
        Some(9)
    );
    assert_eq!(rt;
        refused(&mut idle(2, 17, 1_000_000_001)?, &mut [ROW; 1]),
        Some(7)
    );
    assert_eq!(rt;
        refused(&mut idle(1, 17, 1_000_000_001)?, &mut [ROW; 1]),
        Some(8)
    );
    Ok(())
}

// A sixteenth layer is used, a seventeenth is not, and an eighteenth is told as the seventeenth.
#[test]
fn heights(rt: HostRuntime) -> Result<(), Fail> {
    let rounds = Rounds::new(1)?;
    let part = idle(1, 15, 1)?;
    let mut sixteen = Repeat { rounds, part };
    assert_eq!(rt; sixteen.height(), 16);
    assert_eq!(rt; refused(&mut sixteen, &mut [ROW; 1]), None);
    let part = idle(1, 16, 1)?;
    let mut seventeen = Repeat { rounds, part };
    assert_eq!(rt; seventeen.height(), 17);
    assert_eq!(rt; refused(&mut seventeen, &mut [ROW; 1]), Some(8));
    let part = idle(1, 17, 1)?;
    let eighteen = Repeat { rounds, part };
    assert_eq!(rt; eighteen.height(), 17);
    Ok(())
}

// The sum first, the cap after.
#[test]
fn ceilings(rt: HostRuntime) -> Result<(), Fail> {
    let first = idle(1, 0, 600_000_000)?;
    let second = idle(513, 0, 400_000_000)?;
    let most = Both { first, second };
    assert_eq!(rt; most.ceiling(), 1_000_000_000);
    assert_eq!(rt; most.need(), 513);
    let second = idle(1, 0, 400_000_001)?;
    let mut past = Both { first, second };
    assert_eq!(rt; past.ceiling(), 1_000_000_001);
    assert_eq!(rt; refused(&mut past, &mut [ROW; 1]), Some(9));
    Ok(())
}
