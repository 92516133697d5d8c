// Making a bound, and what it does as a contractor.
ghost use Rattle.std.specs.Prelude.{◌≡◌};
ghost use Rattle.constraint.specs.Kinds.{bound_value, MadeBound};
ghost use Rattle.constraint.specs.Mentions.{bound_cells, in_slots};
ghost use Rattle.constraint.specs.Keeping.{bound_value_keeps};

use super::Bound;
use crate::cells::{interval_at, lies_between};
use contractor::{Answer, Contractor};
use tube::{Interval, MAX_CELLS, MakingFault, Row};

impl Bound {
    // The cause by which its faults tell that it is a bound.
    pub const CAUSE: u8 = 1;

    pub fn new(number: u16, cell: usize, low: i32, high: i32) -> Result<Self, MakingFault>
        ensures { MadeBound number cell low high result }
    {
        if cell >= MAX_CELLS {
            return Err(MakingFault::CellBeyondTube);
        }
        let span = Interval::new(low, high)?;
        Ok(Bound {
            number,
            cell: cell as u16,
            span,
        })
    }

    // The cell that it mentions, in three slots.
    pub(crate) fn cells(self) -> [u16; 3]
        ensures { result ≡ in_slots (bound_cells self) }
    {
        [self.cell, self.cell, self.cell]
    }
}

impl Contractor for Bound {
    ghost value = { bound_value };

    ghost keeps = { λ k. bound_value_keeps k };

    fn need(&self) -> usize {
        self.cell as usize + 1
    }

    fn height(&self) -> u8 {
        0
    }

    fn ceiling(&self) -> u64 {
        1
    }

    fn narrow(&mut self, tube: &mut [Row]) -> Answer {
        let held = interval_at(tube, self.cell);
        // Most uses narrow nothing, and then nothing is written.
        if lies_between(held, Row::from(self.span)) {
            return Answer::settled();
        }
        let Some(left) = held.cut(self.span.low, self.span.high) else {
            return Answer::empty_at(Bound::CAUSE, self.number, self.cell as usize);
        };
        tube[self.cell as usize] = Row::from(left);
        Answer::settled()
    }
}
