// The fields of a swim log: numbers with their least byte first, and the records that they make up.
ghost use Rattle.std.specs.Prelude.{◌≡◌, ◌+◌, take, drop};
ghost use Rattle.swimlog.specs.Format.{byte_at, two_bytes_at, number_at, head_length, body_length, head_at, body_at, field};

use crate::fault::FieldFault;

// What stands in a record's head.
#[derive(Clone, Copy, Debug, Eq, PartialEq)]
pub struct Head {
    pub kind: u8,
    pub axis: u8,
    pub p: u16,
    pub q: u16,
}

// What stands in a record's body. Its fields have the names that docs/LOG.md gives them, since what they mean hangs on the kind.
#[derive(Clone, Copy, Debug, Eq, PartialEq)]
pub struct Body {
    pub b0: i32,
    pub b1: i32,
    pub b2: i32,
    pub b3: i32,
    pub b4: i32,
    pub b5: i32,
}

// A record as it stands in a log, its head among the heads and its body among the bodies.
#[derive(Clone, Copy, Debug, Eq, PartialEq)]
pub struct Record {
    pub head: Head,
    pub body: Body,
}

// The next so many bytes from a place on.
fn bytes_at<const N: usize>(bytes: &[u8], at: usize) -> Result<[u8; N], FieldFault>
    ensures { result ≡ field bytes.now (at + N) (take N (drop at bytes.now)) }
{
    let rest = bytes.get(at..).ok_or(FieldFault::CutOff)?;
    rest.first_chunk().copied().ok_or(FieldFault::CutOff)
}

fn byte(bytes: &[u8], at: usize) -> Result<u8, FieldFault>
    ensures { result ≡ field bytes.now (at + 1) (byte_at bytes.now at) }
{
    let [byte] = bytes_at::<1>(bytes, at)?;
    Ok(byte)
}

// Not one generic function with number(): std has no trait with from_le_bytes. That of num_traits answers T.of_le_bytes, and each call would have to show what that is.
pub(crate) fn two_bytes(bytes: &[u8], at: usize) -> Result<u16, FieldFault>
    ensures { result ≡ field bytes.now (at + 2) (two_bytes_at bytes.now at) }
{
    Ok(u16::from_le_bytes(bytes_at(bytes, at)?))
}

fn number(bytes: &[u8], at: usize) -> Result<i32, FieldFault>
    ensures { result ≡ field bytes.now (at + 4) (number_at bytes.now at) }
{
    Ok(i32::from_le_bytes(bytes_at(bytes, at)?))
}

pub(crate) fn read_head(bytes: &[u8], at: usize) -> Result<Head, FieldFault>
    ensures { result ≡ field bytes.now (at + head_length) (head_at bytes.now at) }
{
    let kind = byte(bytes, at)?;
    let axis = byte(bytes, at + 1)?;
    let p = two_bytes(bytes, at + 2)?;
    let q = two_bytes(bytes, at + 4)?;
    Ok(Head { kind, axis, p, q })
}

pub(crate) fn read_body(bytes: &[u8], at: usize) -> Result<Body, FieldFault>
    ensures { result ≡ field bytes.now (at + body_length) (body_at bytes.now at) }
{
    let b0 = number(bytes, at)?;
    let b1 = number(bytes, at + 4)?;
    let b2 = number(bytes, at + 8)?;
    let b3 = number(bytes, at + 12)?;
    let b4 = number(bytes, at + 16)?;
    let b5 = number(bytes, at + 20)?;
    Ok(Body {
        b0,
        b1,
        b2,
        b3,
        b4,
        b5,
    })
}
