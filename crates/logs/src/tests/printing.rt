// What is printed for small logs.
use super::*;

// The log of two gates that is kept, byte by byte: five heads stand before five bodies.
const TWO_GATES: &[u8; 154] = b"\
    \x02\0\x05\0\
    B\0\0\0\0\0\
    B\x01\0\0\0\0\
    S\0\0\0\0\0\
    S\x01\0\0\0\0\
    R\0\x01\0\0\0\
    \0\0\0\0\0\0\0\0\0\0\0\0\0\0\0\0\0\0\0\0\0\0\0\0\
    \0\0\0\0\0\0\0\0\0\0\0\0\0\0\0\0\0\0\0\0\0\0\0\0\
    \x03\0\0\0\x05\0\0\0\0\0\0\0\0\0\0\0\0\0\0\0\0\0\0\0\
    \0\0\0\0\0\0\0\0\0\0\0\0\0\0\0\0\0\0\0\0\0\0\0\0\
    \x0a\0\0\0\0\0\0\0\x06\0\0\0\x06\0\0\0\0\0\0\0\0\0\0\0";

// One buffer for many logs: each report is added at its end.
#[test]
fn reports(rt: HostRuntime) -> Result<(), Fail> {
    let kept = two_gates(rt.alloc(), 6, 6)?;
    assert_eq!(rt; kept.as_slice(), TWO_GATES.as_slice());
    let mut out = Vec::new(rt.alloc());
    write_survey(kept.as_slice(), &mut out)?;
    let empty = two_gates(rt.alloc(), 20, 20)?;
    write_survey(empty.as_slice(), &mut out)?;
    let refused = two_gates(rt.alloc(), 7, 6)?;
    write_survey(refused.as_slice(), &mut out)?;
    write_survey(&[1, 0], &mut out)?;
    write_survey(&[1, 0, 0, 0], &mut out)?;
    assert_eq!(rt;
        out.as_slice(),
        b"kept 31 settled\n0 0 0 0 0\n1 4 4 0 0\nempty 6 3 1 340 15\nrefused 17 4 3\nrefused 13 0 0\nkept 0 settled\n0 -536870912 536870912 -536870912 536870912\n".as_slice()
    );
    Ok(())
}
