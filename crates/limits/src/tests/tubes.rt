// Which tables are tubes, and what a use on one that is none does.
use super::*;
use tube::is_tube;

#[test]
fn lengths(rt: HostRuntime) {
    let rows = [FULL; 513];
    assert!(rt; !is_tube(&rows[0..0]));
    assert!(rt; is_tube(&rows[0..1]));
    assert!(rt; is_tube(&rows[0..512]));
    assert!(rt; !is_tube(&rows));
}

#[test]
fn rows(rt: HostRuntime) {
    for (low, high, fits) in [
        (-W, W, true),
        (0, 0, true),
        (W, W, true),
        (1, 0, false),
        (-W - 1, 0, false),
        (0, W + 1, false),
        (i32::MIN, i32::MAX, false),
    ] {
        // The last row counts as the first does.
        assert_eq!(rt; is_tube(&[row(low, high), FULL]), fits);
        assert_eq!(rt; is_tube(&[FULL, FULL, row(low, high)]), fits);
    }
}

#[test]
fn refused_uses(rt: HostRuntime) -> Result<(), Fail> {
    let refused = Err(UseRefusal::NotATube);
    // A row that the constraint does not look at is no interval.
    let inverted = [row(0, 9), row(1, 0)];
    check_use(&rt, bound(1, 0, 3, 4), inverted, refused, inverted)?;
    let beyond = [row(0, 9), row(0, W + 1)];
    check_use(&rt, bound(1, 0, 3, 4), beyond, refused, beyond)?;
    // The need is one above the greatest cell.
    let pair = [row(0, 9), row(0, 9)];
    check_use(&rt, bound(1, 2, 3, 4), pair, refused, pair)?;
    check_use(&rt, step(2, 0, 1, 2), pair, refused, pair)?;
    check_use(&rt, range(3, (2, 0), (0, 0), (3, 4)), pair, refused, pair)?;
    check_use(&rt, bound(1, 0, 3, 4), [], refused, [])?;
    check_use(&rt, bound(1, 0, 3, 4), [FULL; 513], refused, [FULL; 513])
}

#[test]
fn longest_tube(rt: HostRuntime) -> Result<(), Fail> {
    let mut table = [FULL; 512];
    let mut last = bound(1, 511, 3, 4)?;
    assert_eq!(rt; last.need(), 512);
    assert_eq!(rt; last.contract(&mut table), kept());
    assert_eq!(rt; table[510], FULL);
    assert_eq!(rt; table[511], row(3, 4));
    Ok(())
}
