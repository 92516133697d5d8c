// Three intervals, one of which holds the sums of the other two.
ghost use Rattle.std.specs.Prelude.{◌≡◌, ◌+ℤ◌, ◌-ℤ◌};
ghost use Rattle.tube.specs.Intervals.{row_of, row_if_any};
ghost use Rattle.tube.specs.Tubes.{row, cut};
ghost use Rattle.constraint.specs.Constraints.{all_fit, summed};
ghost use Rattle.constraint.specs.Sums.{rows_if_any};

use crate::cells::lies_between;
use tube::{Interval, Row};

#[derive(Clone, Copy)]
pub(crate) struct Summed {
    pub(crate) from: Interval,
    pub(crate) by: Interval,
    pub(crate) to: Interval,
}

impl Summed {
    // What is left of three intervals when `to` is to be `from` plus `by`, or nothing. Each is cut as the others came in.
    pub(crate) fn new(from: Interval, by: Interval, to: Interval) -> Option<Self>
        ensures { rows_if_any result ≡ summed (row_of from) (row_of by) (row_of to) }
    {
        let to_left = cut_to(to, sums(from, by))?;
        // Where the sum has a number left, so have its parts.
        Some(Summed {
            from: cut_to(from, differences(to, by)).unwrap(),
            by: cut_to(by, differences(to, from)).unwrap(),
            to: to_left,
        })
    }
}

// Whether three intervals are left whole when `to` is to be `from` plus `by`.
pub(crate) fn all_fit(from: Interval, by: Interval, to: Interval) -> bool
    ensures { result ≡ all_fit (row_of from) (row_of by) (row_of to) }
{
    lies_between(to, sums(from, by))
        && lies_between(from, differences(to, by))
        && lies_between(by, differences(to, from))
}

// Between which numbers the sums of two intervals lie, and their differences.
fn sums(a: Interval, b: Interval) -> Row
    ensures { result ≡ row (a.low +ℤ b.low) (a.high +ℤ b.high) }
{
    Row {
        low: a.low + b.low,
        high: a.high + b.high,
    }
}

fn differences(a: Interval, b: Interval) -> Row
    ensures { result ≡ row (a.low -ℤ b.high) (a.high -ℤ b.low) }
{
    Row {
        low: a.low - b.high,
        high: a.high - b.low,
    }
}

// An interval cut with the numbers between two ends.
fn cut_to(own: Interval, ends: Row) -> Option<Interval>
    ensures { row_if_any result ≡ cut (row_of own) ends.low ends.high }
{
    own.cut(ends.low, ends.high)
}
