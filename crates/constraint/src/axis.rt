// A point and a beacon, seen on one axis.
ghost use Rattle.std.specs.Prelude.{◌≡◌, ◌*◌, true, pos, ◌-ℤ◌, neg_ℤ, ◌≤ℤ◌};
ghost use Rattle.tube.specs.Intervals.{row_of, row_if_any};
ghost use Rattle.tube.specs.Spans.{reach};
ghost use Rattle.constraint.specs.Hulls.{square, greatest_square, least_square, in_ring, are_ends_in_ring, ring, joined, Squared};
ghost use Rattle.constraint.specs.Makings.{is_coordinate};

use crate::limits::Limits;
use tube::Interval;

// The cell in which the point lies, and where the beacon stands.
#[derive(Clone, Copy)]
pub(crate) struct Axis {
    pub(crate) cell: Interval,
    pub(crate) beacon: i32,
    ghost placed: { is_coordinate beacon ≡ true },
}

// The square of a difference of two coordinates, or of a distance.
pub(crate) fn square_of(d: i64) -> i64
    requires above { neg_ℤ (pos (2 * reach)) ≤ℤ d }
    requires below { d ≤ℤ pos (2 * reach) }
    ensures { Squared (square d) result }
{
    d * d
}

// The least interval that holds what is left on either side of a beacon, if anything is.
fn either_side(left: Option<Interval>, right: Option<Interval>) -> Option<Interval>
    ensures { row_if_any result ≡ joined (row_if_any left) (row_if_any right) }
{
    match (left, right) {
        (Some(a), Some(b)) => Some(a.hull(b)),
        _ => left.or(right),
    }
}

impl Axis {
    // The square of the distance of a coordinate from the beacon's.
    fn squared_from(self, v: i32) -> i64
        requires { is_coordinate v ≡ true }
        ensures { Squared (square (v -ℤ self.beacon)) result }
    {
        square_of(v as i64 - self.beacon as i64)
    }

    // The greatest square of a distance from the beacon, over the cell.
    pub(crate) fn greatest_square(self) -> i64
        ensures { Squared (greatest_square (row_of self.cell) self.beacon) result }
    {
        self.squared_from(self.cell.low)
            .max(self.squared_from(self.cell.high))
    }

    // The least square of a distance from the beacon, over the cell: 0 where the beacon's coordinate lies in it.
    pub(crate) fn least_square(self) -> i64
        ensures { Squared (least_square (row_of self.cell) self.beacon) result }
    {
        if self.cell.contains(self.beacon) {
            0
        } else {
            self.squared_from(self.cell.low)
                .min(self.squared_from(self.cell.high))
        }
    }

    // Whether a number's distance from the beacon has a square within the limits.
    fn is_in_ring(self, v: i32, limits: Limits) -> bool
        requires { is_coordinate v ≡ true }
        ensures { result ≡ in_ring limits.inner limits.outer self.beacon v }
    {
        let square = self.squared_from(v);
        limits.inner <= square && square <= limits.outer
    }

    // Whether both ends of the cell are at such a distance. Then nothing is cut off it.
    pub(crate) fn is_whole(self, limits: Limits) -> bool
        ensures { result ≡ are_ends_in_ring limits.inner limits.outer self.beacon (row_of self.cell) }
    {
        self.is_in_ring(self.cell.low, limits) && self.is_in_ring(self.cell.high, limits)
    }

    // The least interval that holds the numbers of the cell whose distance from the beacon has a square within the limits, if there are any.
    pub(crate) fn within(self, limits: Limits) -> Option<Interval>
        ensures { row_if_any result ≡ ring limits.inner limits.outer self.beacon (row_of self.cell) }
    {
        if limits.outer < 0 {
            return None;
        }
        // A cell that is left whole needs no root.
        if self.is_whole(limits) {
            return Some(self.cell);
        }
        let near = limits.near();
        let far = limits.far();
        either_side(
            self.cell.cut(self.beacon - far, self.beacon - near),
            self.cell.cut(self.beacon + near, self.beacon + far),
        )
    }
}
