// The records of a swim log, each read to the constraint that it says.
ghost use Rattle.swimlog.specs.Logs.{record_in};
ghost use Rattle.swimlog.specs.Records.{bounds, ranges, says, made, record_says, Reads};

use crate::fault::{FieldFault, RecordFault};
use crate::field::{Body, Record, read_body, read_head};
use crate::kind::{Axis, Kind};
use crate::layout::head_start;
use crate::log::Log;
use crate::sizes::Sizes;
use constraint::{Beacon, Bound, Constraint, Range};

fn make_bound(number: u16, cell: usize, body: Body) -> Result<Constraint, RecordFault>
    ensures { Reads (made (bounds number cell body.b0 body.b1)) result }
{
    let bound = Bound::new(number, cell, body.b0, body.b1)?;
    Ok(Constraint::Bound(bound))
}

fn make_range(number: u16, x: usize, y: usize, body: Body) -> Result<Constraint, RecordFault>
    ensures { Reads (made (ranges number x y body.b0 body.b1 body.b2 body.b3)) result }
{
    let beacon = Beacon {
        x: body.b0,
        y: body.b1,
    };
    let range = Range::new(number, x, y, beacon, body.b2, body.b3)?;
    Ok(Constraint::Range(range))
}

impl Record {
    fn make(self, sizes: Sizes, number: u16, kind: Kind) -> Result<Constraint, RecordFault>
        ensures { Reads (made (says sizes.gates number kind self.head self.body)) result }
    {
        let place = self.head.p;
        match kind {
            Kind::Position(axis) => make_bound(number, sizes.gate_cell(axis, place), self.body),
            Kind::Step(axis) => make_bound(number, sizes.step_cell(axis, place), self.body),
            Kind::Distance => {
                let x = sizes.gate_cell(Axis::X, place);
                let y = sizes.gate_cell(Axis::Y, place);
                make_range(number, x, y, self.body)
            }
        }
    }

    fn constraint(self, sizes: Sizes, number: u16) -> Result<Constraint, RecordFault>
        ensures { Reads (record_says sizes.gates number self.head self.body) result }
    {
        let kind = Kind::try_from(self.head)?;
        if !self.is_placed(sizes, kind) {
            return Err(RecordFault::BadPlace);
        }
        self.make(sizes, number, kind)
    }
}

// The record at a place. A place behind the last one is cut off, since a log is as long as its sizes ask for.
pub(crate) fn read_record(log: &Log, index: u16) -> Result<Constraint, RecordFault>
    ensures { Reads (record_in log.now.bytes.now log.now.sizes.gates log.now.sizes.records index) result }
{
    let bytes = log.bytes();
    let sizes = log.sizes();
    let head = read_head(bytes, head_start(index))?;
    let body = read_body(bytes, sizes.body_start(index))?;
    let number = 2 * (sizes.gates() - 1) + index;
    Record { head, body }.constraint(sizes, number)
}
