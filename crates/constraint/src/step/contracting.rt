// Making a step, and what it does as a contractor.
ghost use Rattle.std.specs.Prelude.{◌≡◌};
ghost use Rattle.constraint.specs.Kinds.{step_value, MadeStep};
ghost use Rattle.constraint.specs.Mentions.{step_cells, in_slots};
ghost use Rattle.constraint.specs.Keeping.{step_value_keeps};

use super::Step;
use crate::cells::interval_at;
use crate::sum::{Summed, all_fit};
use contractor::{Answer, Contractor};
use tube::{MAX_CELLS, MakingFault, Row};

impl Step {
    // The cause by which its faults tell that it is a step.
    pub const CAUSE: u8 = 2;

    pub fn new(number: u16, from: usize, by: usize, to: usize) -> Result<Self, MakingFault>
        ensures { MadeStep number from by to result }
    {
        if from >= MAX_CELLS || by >= MAX_CELLS || to >= MAX_CELLS {
            return Err(MakingFault::CellBeyondTube);
        }
        if from == by || from == to || by == to {
            return Err(MakingFault::EqualCells);
        }
        Ok(Step {
            number,
            from: from as u16,
            by: by as u16,
            to: to as u16,
        })
    }

    // The cells that it mentions.
    pub(crate) fn cells(self) -> [u16; 3]
        ensures { result ≡ in_slots (step_cells self) }
    {
        [self.from, self.by, self.to]
    }
}

impl Contractor for Step {
    ghost value = { step_value };

    ghost keeps = { λ k. step_value_keeps k };

    fn need(&self) -> usize {
        self.to.max(self.from).max(self.by) as usize + 1
    }

    fn height(&self) -> u8 {
        0
    }

    fn ceiling(&self) -> u64 {
        1
    }

    fn narrow(&mut self, tube: &mut [Row]) -> Answer {
        // All three are read before any is written.
        let from = interval_at(tube, self.from);
        let by = interval_at(tube, self.by);
        let to = interval_at(tube, self.to);
        // Most uses narrow nothing, and then nothing is written.
        if all_fit(from, by, to) {
            return Answer::settled();
        }
        let Some(left) = Summed::new(from, by, to) else {
            return Answer::empty_at(Step::CAUSE, self.number, self.to as usize);
        };
        tube[self.to as usize] = Row::from(left.to);
        tube[self.from as usize] = Row::from(left.from);
        tube[self.by as usize] = Row::from(left.by);
        Answer::settled()
    }
}
