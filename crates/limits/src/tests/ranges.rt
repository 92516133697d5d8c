// Ranges: both sides of a beacon, the hole between them, and the limits of squares and roots.
use super::*;

// The point is 5 millimetres from a beacon at 0.
fn five() -> Result<Constraint, MakingFault> {
    range(8, (0, 1), (0, 0), (5, 5))
}

#[test]
fn sides(rt: HostRuntime) -> Result<(), Fail> {
    let three = row(3, 3);
    check_use(&rt, five(), [row(0, 10), three], kept(), [row(4, 4), three])?;
    check_use(
        &rt,
        five(),
        [row(-10, 10), three],
        kept(),
        [row(-4, 4), three],
    )?;
    // The cell reaches into the hole from one side.
    check_use(
        &rt,
        five(),
        [row(-10, 3), three],
        kept(),
        [row(-4, -4), three],
    )?;
    check_use(
        &rt,
        five(),
        [row(-3, 10), three],
        kept(),
        [row(4, 4), three],
    )?;
    // All of the cell is in the hole.
    let inside = [row(-3, 3), three];
    check_use(&rt, five(), inside, empty(3, 8, 0), inside)
}

#[test]
fn nothing_left(rt: HostRuntime) -> Result<(), Fail> {
    let at_x = [row(0, 0), row(-4, 4)];
    check_use(&rt, five(), at_x, empty(3, 8, 0), at_x)?;
    // The other axis alone is farther than the farthest distance.
    let out = [row(-9, 9), row(6, 9)];
    check_use(&rt, five(), out, empty(3, 8, 0), out)?;
    // Nothing is left of y, though x was fine.
    let at_y = [row(1, 1), row(4, 4), row(2, 2), row(-6, -6), row(6, 9)];
    let near = range(2, (3, 4), (-5, 6), (2, 2));
    check_use(&rt, near, at_y, empty(3, 2, 4), at_y)
}

#[test]
fn both_axes(rt: HostRuntime) -> Result<(), Fail> {
    // Each axis from the other as it came in: from the new x nothing would be left of y.
    let before = [row(1, 8), row(-1, 5)];
    let after = [row(1, 2), row(-1, -1)];
    let eight = range(8, (0, 1), (6, 6), (8, 8));
    check_use(&rt, eight, before, kept(), after)?;
    // x is the later cell.
    let three = [row(0, 4), row(-6, -5), row(-5, -2)];
    let left = [row(2, 3), row(-6, -5), row(-5, -2)];
    check_use(&rt, range(14, (2, 0), (-4, 6), (3, 4)), three, kept(), left)?;
    // A distance of 0 leaves the beacon alone.
    let here = [row(-7, -7), row(9, 9)];
    let zero = range(1, (0, 1), (-7, 9), (0, 0));
    check_use(&rt, zero, [FULL, FULL], kept(), here)
}

// The beacon at one end of an axis, the point at the other: the greatest squares and roots that there are.
#[test]
fn limits(rt: HostRuntime) -> Result<(), Fail> {
    let across = range(1, (0, 1), (W, 0), (2 * W, 2 * W));
    let level = row(0, 0);
    check_use(&rt, across, [FULL, level], kept(), [row(-W, -W), level])?;
    // The square root of three times the square of W is 929,887,696.7, and is rounded up.
    let arc = row(-W, W - 929_887_697);
    check_use(&rt, across, [FULL, FULL], kept(), [arc, FULL])?;
    // One millimetre off the axis, the ring lies between two whole numbers.
    let off = [FULL, row(1, 1)];
    check_use(&rt, across, off, empty(3, 1, 0), off)?;
    let thin = range(1, (0, 1), (W, 0), (2 * W - 1, 2 * W));
    check_use(&rt, thin, off, kept(), [row(-W + 1, -W + 1), row(1, 1)])?;
    // From corner to corner only x at the beacon is left, and a millimetre less leaves nothing.
    let low = row(-W, -W);
    let corner = range(1, (0, 1), (W, W), (2 * W, 2 * W));
    check_use(&rt, corner, [FULL, low], kept(), [row(W, W), low])?;
    let short = range(1, (0, 1), (W, W), (0, 2 * W - 1));
    check_use(&rt, short, [FULL, low], empty(3, 1, 0), [FULL, low])
}
