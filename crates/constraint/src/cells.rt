// The cells of a tube, as the constraints read them.
ghost use Rattle.std.specs.Prelude.{◌≡◌, ◌<◌, true, length};
ghost use Rattle.tube.specs.Intervals.{row_of};
ghost use Rattle.tube.specs.Tubes.{is_tube, cell};
ghost use Rattle.constraint.specs.Constraints.{lies_between};

use tube::{Interval, Row};

// Constraints have their cells as plain numbers, and say in their own types that they are cells: a step's and a range's differ besides, so that a type for one cell would not say it all.

// A cell of a tube. That its row is an interval is known of every tube, so nothing is tested.
// That the table is a tube is asked for and not told by a type: tables are the caller's slices, and a type round one would be made anew for every use of every part.
pub(crate) fn interval_at(tube: &[Row], index: u16) -> Interval
    requires tube { is_tube tube.now ≡ true }
    requires within { index < length tube.now }
    ensures { row_of result ≡ cell tube.now index }
{
    let row = tube[index as usize];
    Interval {
        low: row.low,
        high: row.high,
    }
}

// Whether an interval lies between two numbers, so that they cut nothing off it.
pub(crate) fn lies_between(own: Interval, ends: Row) -> bool
    ensures { result ≡ lies_between (row_of own) ends.low ends.high }
{
    ends.low <= own.low && own.high <= ends.high
}
