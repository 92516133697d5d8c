// What the tests share: records, the bytes of a log and its refusal in few words.
mod fields;
mod filling;
mod order;
mod printing;

use constraint::{Beacon, Bound, Constraint, Range, Step};
use contractor::Rounds;
use net::Net;
use std::alloc::Global;
use std::process::Abort;
use std::test::Fail;
use survey::write_survey;
use swimlog::{LogFault, check_log, read_log};
use tube::Interval;

// The farthest coordinate, as in the tests of limits: one line needs no crate.
const W: i32 = Interval::REACH;

#[derive(Clone, Copy)]
struct Record {
    kind: u8,
    axis: u8,
    p: u16,
    q: u16,
    body: [i32; 6],
}

fn of_kind(kind: u8, axis: u8, p: u16, body: [i32; 6]) -> Record {
    Record {
        kind,
        axis,
        p,
        q: 0,
        body,
    }
}

fn position(axis: u8, gate: u16, low: i32, high: i32) -> Record {
    of_kind(b'B', axis, gate, [low, high, 0, 0, 0, 0])
}

fn step(axis: u8, slice: u16, low: i32, high: i32) -> Record {
    of_kind(b'S', axis, slice, [low, high, 0, 0, 0, 0])
}

fn distance(gate: u16, beacon: (i32, i32), nearest: i32, farthest: i32) -> Record {
    of_kind(b'R', 0, gate, [beacon.0, beacon.1, nearest, farthest, 0, 0])
}

// A record that is refused by a number, in a log of at most 999 gates; a good one for none, or for any other number.
fn refused_by(number: Option<u8>) -> Record {
    match number {
        Some(15) => of_kind(b'b', 0, 0, [0; 6]),
        Some(16) => of_kind(b'B', 0, 999, [0; 6]),
        Some(17) => of_kind(b'B', 0, 0, [1, 0, 0, 0, 0, 0]),
        _ => of_kind(b'B', 0, 0, [0; 6]),
    }
}

// The bytes of a log: its sizes, then all heads, then all bodies.
fn log(heap: Global, gates: u16, records: &[Record]) -> Result<Vec<u8>, Fail> {
    let mut bytes = Vec::new(heap);
    bytes.extend_from_slice(&gates.to_le_bytes())?;
    bytes.extend_from_slice(&u16::try_from(records.len())?.to_le_bytes())?;
    for record in records {
        bytes.extend_from_slice(&[record.kind, record.axis])?;
        bytes.extend_from_slice(&record.p.to_le_bytes())?;
        bytes.extend_from_slice(&record.q.to_le_bytes())?;
    }
    for record in records {
        for value in record.body {
            bytes.extend_from_slice(&value.to_le_bytes())?;
        }
    }
    Ok(bytes)
}

// The number, the record and the number inside, as a fault tells them.
type Told = (u8, u16, u8);

fn told<T: Drop>(read: Result<T, LogFault>) -> Option<Told> {
    let fault = read.err()?;
    Some((fault.number(), fault.record(), fault.inner()))
}

// What is told of a number in a record: inside a 17 there is always a 3.
fn telling(number: Option<u8>, record: u16) -> Option<Told> {
    let number = number?;
    let inner = if number == 17 { 3 } else { 0 };
    Some((number, record, inner))
}

// A log of one record, and the number by which it is refused, if it is.
fn check_record(
    rt: &impl Abort,
    heap: Global,
    gates: u16,
    record: Record,
    number: Option<u8>,
) -> Result<(), Fail> {
    let bytes = log(heap, gates, &[record])?;
    assert_eq!(rt; told(check_log(bytes.as_slice())), telling(number, 0));
    Ok(())
}

// Two gates: the robot starts at the origin and steps 3 to 5 to the right, and is then this far from (10, 0).
fn two_gates(heap: Global, nearest: i32, farthest: i32) -> Result<Vec<u8>, Fail> {
    log(
        heap,
        2,
        &[
            position(0, 0, 0, 0),
            position(1, 0, 0, 0),
            step(0, 0, 3, 5),
            step(1, 0, 0, 0),
            distance(1, (10, 0), nearest, farthest),
        ],
    )
}
