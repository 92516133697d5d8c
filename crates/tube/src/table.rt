// The test that a table is a tube.
ghost use Rattle.std.specs.Prelude.{◌≡◌};
ghost use Rattle.tube.specs.Tubes.{is_tube};

use crate::interval::Interval;
use crate::row::Row;

// The most cells that a tube has.
pub const MAX_CELLS: usize = 512;

// Whether a table is a tube: 1 to 512 rows, each an interval.
pub fn is_tube(table: &[Row]) -> bool
    ensures { result ≡ is_tube table.now }
{
    if table.is_empty() || table.len() > MAX_CELLS {
        return false;
    }
    // Not all(): where a caller has the whole array, LLVM may test four rows of this loop at once; with all() it was not seen to.
    for row in table {
        if Interval::try_from(*row).is_err() {
            return false;
        }
    }
    true
}
