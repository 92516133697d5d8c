// Which of several faults is told.
use super::*;

// The sizes come before the length, and the length before any record.
#[test]
fn sizes_then_length(rt: HostRuntime) -> Result<(), Fail> {
    assert_eq!(rt; told(check_log(&[0, 0, 1, 0])), Some((13, 0, 0)));
    assert_eq!(rt; told(check_log(&[1, 0, 1, 1])), Some((13, 0, 0)));
    assert_eq!(rt; told(check_log(&[1, 0, 0, 1])), Some((14, 0, 0)));
    for number in [Some(15), Some(16), Some(17)] {
        let mut bytes = log(rt.alloc(), 1, &[refused_by(number)])?;
        assert_eq!(rt; told(check_log(bytes.as_slice())), telling(number, 0));
        bytes.push(0)?;
        assert_eq!(rt; told(check_log(bytes.as_slice())), Some((14, 0, 0)));
    }
    Ok(())
}

// The earliest bad record is told, whatever its number and those of later ones.
#[test]
fn earliest_record(rt: HostRuntime) -> Result<(), Fail> {
    let numbers = [None, Some(15), Some(16), Some(17)];
    for a in numbers {
        for b in numbers {
            for c in numbers {
                let bytes = log(
                    rt.alloc(),
                    1,
                    &[refused_by(a), refused_by(b), refused_by(c)],
                )?;
                let earliest = telling(a, 0).or(telling(b, 1)).or(telling(c, 2));
                assert_eq!(rt; told(check_log(bytes.as_slice())), earliest);
            }
        }
    }
    Ok(())
}

#[test]
fn last_of_256(rt: HostRuntime) -> Result<(), Fail> {
    for number in [Some(15), Some(16), Some(17)] {
        let mut records = [position(0, 0, 0, 0); 256];
        records[255] = refused_by(number);
        let bytes = log(rt.alloc(), 1, &records)?;
        assert_eq!(rt; told(check_log(bytes.as_slice())), telling(number, 255));
    }
    Ok(())
}

// In one record the kind comes first, then the place and the unused fields, then the values.
#[test]
fn in_one_record(rt: HostRuntime) -> Result<(), Fail> {
    for (kind, axis, p, body, number) in [
        (b'C', 0, 9, [9, 0, 1, 0, 0, 0], Some(15)),
        (b'B', 2, 9, [0; 6], Some(15)),
        (b'S', 2, 0, [9, 0, 0, 0, 0, 0], Some(15)),
        (b'R', 1, 9, [0, 0, 9, 0, 0, 1], Some(15)),
        (b'B', 1, 9, [9, 0, 0, 0, 0, 0], Some(16)),
        (b'S', 0, 0, [9, 0, 0, 0, 0, 1], Some(16)),
        (b'R', 0, 0, [0, 0, 9, 0, 1, 0], Some(16)),
        (b'R', 0, 1, [0, 0, 9, 0, 0, 0], Some(17)),
    ] {
        check_record(&rt, rt.alloc(), 2, of_kind(kind, axis, p, body), number)?;
    }
    Ok(())
}
