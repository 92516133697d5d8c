// Bounds and steps.
use super::*;

#[test]
fn bounds(rt: HostRuntime) -> Result<(), Fail> {
    let cell = [row(-5, 5)];
    check_use(&rt, bound(6, 0, 0, 9), cell, kept(), [row(0, 5)])?;
    check_use(&rt, bound(6, 0, 6, 9), cell, empty(1, 6, 0), cell)?;
    check_use(&rt, bound(6, 0, 5, 9), cell, kept(), [row(5, 5)])?;
    check_use(&rt, bound(6, 0, -W, W), cell, kept(), cell)?;
    check_use(&rt, bound(6, 0, -W, -W), [FULL], kept(), [row(-W, -W)])
}

#[test]
fn bounds_among_others(rt: HostRuntime) -> Result<(), Fail> {
    let four = [row(0, 1), row(-4, 0), row(0, 1), row(-6, -6)];
    let cut = [row(0, 1), row(-4, -1), row(0, 1), row(-6, -6)];
    check_use(&rt, bound(13, 1, -6, -1), four, kept(), cut)?;
    let number = u16::MAX;
    check_use(
        &rt,
        bound(number, 3, -1, -1),
        four,
        empty(1, number, 3),
        four,
    )
}

#[test]
fn steps(rt: HostRuntime) -> Result<(), Fail> {
    let three = [row(0, 2), row(3, 4), row(5, 10)];
    let left = [row(1, 2), row(3, 4), row(5, 6)];
    check_use(&rt, step(7, 0, 1, 2), three, kept(), left)?;
    let none = [row(0, 2), row(3, 4), row(7, 9)];
    check_use(&rt, step(7, 0, 1, 2), none, empty(2, 7, 2), none)?;
    // The cells in another order, and the sum the first of them.
    let turned = [row(2, 10), row(1, 1), row(5, 7), row(-2, 2)];
    let four = [row(4, 6), row(1, 1), row(5, 7), row(-2, 2)];
    check_use(&rt, step(2, 1, 0, 2), turned, kept(), four)?;
    let first = [row(-1, 0), row(-3, -3), row(6, 8)];
    check_use(&rt, step(0, 1, 2, 0), first, empty(2, 0, 0), first)
}

#[test]
fn steps_at_the_limits(rt: HostRuntime) -> Result<(), Fail> {
    let full = [FULL, FULL, FULL];
    check_use(&rt, step(1, 0, 1, 2), full, kept(), full)?;
    // Both parts from the other as it came in.
    let far = [FULL, FULL, row(W, W)];
    let parts = [row(0, W), row(0, W), row(W, W)];
    check_use(&rt, step(1, 0, 1, 2), far, kept(), parts)?;
    let beyond = [row(W, W), row(W, W), FULL];
    check_use(&rt, step(1, 0, 1, 2), beyond, empty(2, 1, 2), beyond)?;
    let back = [row(-W, -W), row(W, W), FULL];
    let home = [row(-W, -W), row(W, W), row(0, 0)];
    check_use(&rt, step(1, 0, 1, 2), back, kept(), home)?;
    let start = [FULL, row(-W, -W), row(-W, -W)];
    let still = [row(0, 0), row(-W, -W), row(-W, -W)];
    check_use(&rt, step(1, 0, 1, 2), start, kept(), still)
}
