// Each field of a log at its limits and one past them.
use super::*;

#[test]
fn sizes(rt: HostRuntime) -> Result<(), Fail> {
    for (gates, count, number) in [
        (0, 0, Some(13)),
        (0, 256, Some(13)),
        (1, 0, None),
        (1, 256, None),
        (1, 257, Some(13)),
        (128, 0, None),
        (128, 256, None),
        (129, 0, Some(13)),
        (129, 257, Some(13)),
        (256, 1, Some(13)),
        (257, 1, Some(13)),
    ] {
        let records = vec![in rt.alloc(); position(0, 0, 0, 0); count]?;
        let bytes = log(rt.alloc(), gates, records.as_slice())?;
        assert_eq!(rt; told(check_log(bytes.as_slice())), telling(number, 0));
    }
    Ok(())
}

// Two records are 64 bytes, and none are 4.
#[test]
fn lengths(rt: HostRuntime) -> Result<(), Fail> {
    let mut bytes = log(rt.alloc(), 1, &[position(0, 0, 0, 0); 2])?;
    for length in 0..bytes.len() {
        let number = if length < 4 { 13 } else { 14 };
        let short = &bytes.as_slice()[0..length];
        assert_eq!(rt; told(check_log(short)), Some((number, 0, 0)));
    }
    assert_eq!(rt; told(check_log(bytes.as_slice())), None);
    assert_eq!(rt; bytes.len(), 64);
    bytes.push(0)?;
    assert_eq!(rt; told(check_log(bytes.as_slice())), Some((14, 0, 0)));
    assert_eq!(rt; told(check_log(&[1, 0, 0, 0])), None);
    assert_eq!(rt; told(check_log(&[1, 0, 0, 0, 0])), Some((14, 0, 0)));
    Ok(())
}

// Every byte as a kind and every byte as an axis.
#[test]
fn kinds(rt: HostRuntime) -> Result<(), Fail> {
    for kind in 0..=255 {
        for axis in 0..=255 {
            let number = match (kind, axis) {
                (b'B' | b'S', 0 | 1) | (b'R', 0) => None,
                _ => Some(15),
            };
            check_record(&rt, rt.alloc(), 2, of_kind(kind, axis, 0, [0; 6]), number)?;
        }
    }
    Ok(())
}

#[test]
fn gates_and_slices(rt: HostRuntime) -> Result<(), Fail> {
    for (gates, kind, p, number) in [
        (3, b'B', 2, None),
        (3, b'B', 3, Some(16)),
        (3, b'S', 1, None),
        (3, b'S', 2, Some(16)),
        (3, b'R', 2, None),
        (3, b'R', 3, Some(16)),
        (1, b'B', 0, None),
        (1, b'S', 0, Some(16)),
        (1, b'R', 0, None),
        (128, b'B', 128, Some(16)),
        (128, b'S', 126, None),
        (128, b'R', 256, Some(16)),
    ] {
        let at = of_kind(kind, 0, p, [0; 6]);
        check_record(&rt, rt.alloc(), gates, at, number)?;
        // No kind has a use for q.
        check_record(&rt, rt.alloc(), gates, Record { q: 1, ..at }, Some(16))?;
        check_record(&rt, rt.alloc(), gates, Record { q: 256, ..at }, Some(16))?;
    }
    Ok(())
}

// A 1 in each field of the body, with 0 in the others: where the kind has a use for it, it is a low end above the high one, or is taken.
#[test]
fn unused_fields(rt: HostRuntime) -> Result<(), Fail> {
    let above = Some(17);
    let unused = Some(16);
    for (kind, numbers) in [
        (b'B', [above, None, unused, unused, unused, unused]),
        (b'S', [above, None, unused, unused, unused, unused]),
        (b'R', [None, None, above, None, unused, unused]),
    ] {
        for (i, number) in numbers.iter().enumerate() {
            let mut body = [0; 6];
            body[i] = 1;
            check_record(&rt, rt.alloc(), 2, of_kind(kind, 0, 0, body), *number)?;
            // The highest byte alone, and all four.
            if *number == unused {
                body[i] = 1 << 24;
                check_record(&rt, rt.alloc(), 2, of_kind(kind, 0, 0, body), unused)?;
                body[i] = -1;
                check_record(&rt, rt.alloc(), 2, of_kind(kind, 0, 0, body), unused)?;
            }
        }
    }
    Ok(())
}

#[test]
fn ends(rt: HostRuntime) -> Result<(), Fail> {
    for (low, high, number) in [
        (-W, W, None),
        (-W, -W, None),
        (W, W, None),
        (5, 5, None),
        (6, 5, Some(17)),
        (-W - 1, 0, Some(17)),
        (0, W + 1, Some(17)),
        (i32::MIN, i32::MAX, Some(17)),
    ] {
        for axis in 0..2 {
            check_record(&rt, rt.alloc(), 2, position(axis, 1, low, high), number)?;
            check_record(&rt, rt.alloc(), 2, step(axis, 0, low, high), number)?;
        }
    }
    Ok(())
}

#[test]
fn distances(rt: HostRuntime) -> Result<(), Fail> {
    for (x, y, nearest, farthest, number) in [
        (-W, W, 0, 2 * W, None),
        (W, -W, 2 * W, 2 * W, None),
        (0, 0, 0, 0, None),
        (W + 1, 0, 0, 9, Some(17)),
        (-W - 1, 0, 0, 9, Some(17)),
        (0, W + 1, 0, 9, Some(17)),
        (0, -W - 1, 0, 9, Some(17)),
        (0, 0, -1, 9, Some(17)),
        (0, 0, 0, -1, Some(17)),
        (0, 0, 0, 2 * W + 1, Some(17)),
        (0, 0, 8, 8, None),
        (0, 0, 9, 8, Some(17)),
    ] {
        let at = distance(1, (x, y), nearest, farthest);
        check_record(&rt, rt.alloc(), 2, at, number)?;
    }
    Ok(())
}
