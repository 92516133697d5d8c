// A net: its records, and how many rounds it may take.
ghost use Rattle.std.specs.Prelude.{◌≡◌, ◌≤◌, length};
ghost use Rattle.net.specs.Nets.{most_records};

use constraint::Constraint;
use contractor::Rounds;

mod building;
mod contracting;

// The most records that a net holds.
pub const MAX_RECORDS: usize = 512;

// The records are the first so many of the table; what stands after them is never read.
// Not an ArrayVec: that was tried, and making a net then copies the table twice more. The survey of a log makes two, and where nothing can be read it took 306,000 instructions in place of 200,000.
#[derive(Drop)]
pub struct Net {
    table: [Constraint; MAX_RECORDS],
    count: usize,
    rounds: Rounds,
    ghost sized: { length table ≡ most_records },
    ghost held: { count ≤ most_records },
}
