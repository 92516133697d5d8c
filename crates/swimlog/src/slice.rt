// The steps of a swim: on each slice, the position at the next gate is the one before plus the step.
ghost use Rattle.std.specs.Prelude.{◌≡◌, ◌+◌, ◌<◌};
ghost use Rattle.swimlog.specs.Records.{step_number, slice_step, Is};

use crate::kind::Axis;
use crate::sizes::Sizes;
use constraint::{Constraint, Step};

impl Sizes {
    fn step_number(self, axis: Axis, slice: u16) -> u16
        requires { slice + 1 < self.gates }
        ensures { result ≡ step_number self.gates axis slice }
    {
        match axis {
            Axis::X => slice,
            Axis::Y => self.gates() - 1 + slice,
        }
    }

    // The step of a slice on an axis. Its cells always differ, so that it can be made.
    pub(crate) fn slice_step(self, axis: Axis, slice: u16) -> Constraint
        requires { slice + 1 < self.gates }
        ensures { Is (slice_step self.gates axis slice) result }
    {
        let from = self.gate_cell(axis, slice);
        let by = self.step_cell(axis, slice);
        let to = self.gate_cell(axis, slice + 1);
        let step = Step::new(self.step_number(axis, slice), from, by, to).unwrap();
        Constraint::Step(step)
    }
}
