// What can be made, and the number of the fault where it cannot.
use super::*;

fn fault_number<T: Drop>(made: Result<T, MakingFault>) -> Option<u8> {
    made.err().map(MakingFault::number)
}

// Both ways of making an interval, and the ends that it then has.
#[test]
fn intervals(rt: HostRuntime) {
    for (low, high, fault) in [
        (-W, W, None),
        (-W, -W, None),
        (W, W, None),
        (-W - 1, W, Some(3)),
        (-W, W + 1, Some(3)),
        (1, 0, Some(3)),
        (W + 1, W + 1, Some(3)),
        (i32::MAX, i32::MIN, Some(3)),
    ] {
        assert_eq!(rt; fault_number(Interval::new(low, high)), fault);
        assert_eq!(rt; fault_number(Interval::try_from(row(low, high))), fault);
        if let Ok(interval) = Interval::new(low, high) {
            assert_eq!(rt; Row::from(interval), row(low, high));
        }
    }
}

#[test]
fn bounds(rt: HostRuntime) {
    for (cell, low, high, fault) in [
        (0, -W, W, None),
        (511, 5, 5, None),
        (512, 0, 9, Some(1)),
        (usize::MAX, 0, 9, Some(1)),
        (512, 9, 0, Some(1)),
        (511, -W - 1, 0, Some(3)),
        (511, 0, W + 1, Some(3)),
        (0, 6, 5, Some(3)),
    ] {
        assert_eq!(rt; fault_number(bound(0, cell, low, high)), fault);
    }
}

#[test]
fn steps(rt: HostRuntime) {
    for (from, by, to, fault) in [
        (0, 510, 511, None),
        (511, 0, 1, None),
        (512, 0, 1, Some(1)),
        (0, 512, 1, Some(1)),
        (0, 1, 512, Some(1)),
        (600, 600, 600, Some(1)),
        (3, 3, 4, Some(2)),
        (3, 4, 3, Some(2)),
        (4, 3, 3, Some(2)),
    ] {
        assert_eq!(rt; fault_number(step(0, from, by, to)), fault);
    }
}

#[test]
fn ranges_on_cells(rt: HostRuntime) {
    for (x, y, fault) in [
        (0, 511, None),
        (511, 0, None),
        (512, 0, Some(1)),
        (0, 512, Some(1)),
        (600, 600, Some(1)),
        (7, 7, Some(2)),
    ] {
        assert_eq!(rt; fault_number(range(0, (x, y), (0, 0), (0, 0))), fault);
        // A fault of the cells comes before one of the values.
        assert_eq!(rt;
            fault_number(range(0, (x, y), (0, 0), (9, 5))),
            fault.or(Some(3))
        );
    }
}

#[test]
fn ranges_of_values(rt: HostRuntime) {
    for (x, y, nearest, farthest, fault) in [
        (W, W, 0, 2 * W, None),
        (-W, -W, 2 * W, 2 * W, None),
        (0, 0, 0, 0, None),
        (W + 1, 0, 0, 9, Some(3)),
        (-W - 1, 0, 0, 9, Some(3)),
        (0, W + 1, 0, 9, Some(3)),
        (0, -W - 1, 0, 9, Some(3)),
        (0, 0, -1, 9, Some(3)),
        (0, 0, 0, 2 * W + 1, Some(3)),
        (0, 0, 9, 8, Some(3)),
    ] {
        let made = range(0, (0, 1), (x, y), (nearest, farthest));
        assert_eq!(rt; fault_number(made), fault);
    }
}
