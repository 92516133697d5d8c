// The union of two contractors.
ghost use Rattle.std.specs.Prelude.{◌≡◌, length};
ghost use Rattle.contractor.specs.Unions.{named_fault, hulls, either};
ghost use Rattle.contractor.specs.Uniting.{either_keeps};

use super::{ceiling_over, either_stopped, height_over, need_over, use_part};
use crate::answer::{Answer, Fault, Verdict};
use crate::contractor::Contractor;
use tube::{MAX_CELLS, Row};

// The digit that a fault's path gets on its way up.
const DIGIT: u64 = 3;

// Uses each part on the tube as it came in, and keeps of each cell the hull of what the parts keep.
#[derive(Clone, Copy, Debug, Drop, PartialEq)]
pub struct Either<A, B> {
    pub first: A,
    pub second: B,
}

// Which side's fault is passed up where both sides are empty.
fn named_fault(first: Fault, _second: Fault) -> Fault
    ensures { result ≡ named_fault first _second }
{
    first
}

// Widens each row of the table to the hull of the other table's row and it.
fn widen(table: &mut [Row], other: &[Row])
    requires { length other.now ≡ length table.old }
    ensures { table.new ≡ hulls other.now table.old }
{
    // Not a zip of both: of rows that are written through the zip of an iter_mut the check learns nothing.
    for (i, row) in other.iter().enumerate() {
        table[i] = row.hull(table[i]);
    }
}

impl<A: Contractor, B: Contractor> Contractor for Either<A, B> {
    ghost value = { λ c. either (A.value c.first) (B.value c.second) };

    ghost keeps = { λ c. either_keeps _ _ (A.keeps c.first) (B.keeps c.second) };

    fn need(&self) -> usize {
        need_over(&self.first, &self.second)
    }

    fn height(&self) -> u8 {
        height_over(&self.first, &self.second)
    }

    fn ceiling(&self) -> u64 {
        ceiling_over(&self.first, &self.second)
    }

    fn narrow(&mut self, tube: &mut [Row]) -> Answer {
        // No heap: as many rows as the longest tube.
        let mut rows = [Row { low: 0, high: 0 }; MAX_CELLS];
        let spare = &mut rows[0..tube.len()];
        spare.copy_from_slice(tube);
        let first = use_part(&mut self.first, spare);
        if let Verdict::Empty(_) = first.verdict {
            // What an empty side left is of no use, but the tube as it came in may be.
            spare.copy_from_slice(tube);
        }
        let second = use_part(&mut self.second, tube);
        let calls = first.calls + second.calls;
        match (first.verdict, second.verdict) {
            (Verdict::Kept(mark), Verdict::Kept(other)) => {
                widen(tube, spare);
                Answer::kept(either_stopped(mark, other), calls)
            }
            (Verdict::Kept(mark), Verdict::Empty(_)) => {
                tube.copy_from_slice(spare);
                Answer::kept(mark, calls)
            }
            (Verdict::Empty(_), Verdict::Kept(mark)) => Answer::kept(mark, calls),
            (Verdict::Empty(fault), Verdict::Empty(other)) => {
                tube.copy_from_slice(spare);
                Answer::empty(named_fault(fault, other).passed_up(DIGIT), calls)
            }
        }
    }
}
