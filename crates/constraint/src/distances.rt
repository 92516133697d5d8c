// The least and the greatest distance of a point from a beacon, in millimetres.
ghost use Rattle.std.specs.Prelude.{◌≡◌, true};
ghost use Rattle.tube.specs.Intervals.{row_of};
ghost use Rattle.constraint.specs.Limits.{AxisLimits};
ghost use Rattle.constraint.specs.Makings.{are_distances};

use crate::axis::{Axis, square_of};
use crate::limits::Limits;
use tube::{Interval, MakingFault};

// The greatest distance that there is.
const GREATEST_DISTANCE: i32 = 2 * Interval::REACH;

#[derive(Clone, Copy, Debug, Eq, PartialEq)]
pub(crate) struct Distances {
    pub(crate) nearest: i32,
    pub(crate) farthest: i32,
    ghost ordered: { are_distances nearest farthest ≡ true },
}

impl Distances {
    ghost use Rattle.constraint.specs.MadeDistances.{MadeDistances};

    pub(crate) fn new(nearest: i32, farthest: i32) -> Result<Self, MakingFault>
        ensures { MadeDistances nearest farthest result }
    {
        if 0 <= nearest && nearest <= farthest && farthest <= GREATEST_DISTANCE {
            Ok(Distances { nearest, farthest })
        } else {
            Err(MakingFault::BadValue)
        }
    }

    // Between which squares that of the distance on one axis lies, after what the other axis can add.
    pub(crate) fn limits(self, other: Axis) -> Limits
        ensures { AxisLimits self.nearest self.farthest (row_of other.cell) other.beacon result }
    {
        Limits {
            inner: square_of(self.nearest as i64) - other.greatest_square(),
            outer: square_of(self.farthest as i64) - other.least_square(),
        }
    }
}
