// The kinds of record in a swim log.
ghost use Rattle.std.specs.Prelude.{◌≡◌};
ghost use Rattle.std.specs.Option.{ok_or};
ghost use Rattle.swimlog.specs.Records.{axis_of, kind_of};
ghost use Rattle.swimlog.specs.declared.fault.RecordFault.TheVariants.{UnknownKind};

use crate::fault::RecordFault;
use crate::field::Head;

#[derive(Clone, Copy, Debug, Eq, PartialEq)]
pub enum Axis {
    X,
    Y,
}

#[derive(Clone, Copy, Debug, Eq, PartialEq)]
pub enum Kind {
    // A position at a gate.
    Position(Axis),
    // The step of a slice, from one gate to the next.
    Step(Axis),
    // A distance from a gate to a beacon.
    Distance,
}

impl TryFrom<u8> for Axis {
    type Error = RecordFault;

    ghost try_from_gives = { λ axis r. r ≡ ok_or (axis_of axis) UnknownKind };

    fn try_from(axis: u8) -> Result<Axis, RecordFault> {
        match axis {
            0 => Ok(Axis::X),
            1 => Ok(Axis::Y),
            _ => Err(RecordFault::UnknownKind),
        }
    }
}

impl TryFrom<Head> for Kind {
    type Error = RecordFault;

    ghost try_from_gives = { λ head r. r ≡ ok_or (kind_of head.kind head.axis) UnknownKind };

    fn try_from(head: Head) -> Result<Kind, RecordFault> {
        match head.kind {
            b'B' => Ok(Kind::Position(head.axis.try_into()?)),
            b'S' => Ok(Kind::Step(head.axis.try_into()?)),
            b'R' if head.axis == 0 => Ok(Kind::Distance),
            _ => Err(RecordFault::UnknownKind),
        }
    }
}
