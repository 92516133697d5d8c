// Where the cells of a swim stand in its tube, and which places a record may name.
ghost use Rattle.std.specs.Prelude.{◌≡◌};
ghost use Rattle.swimlog.specs.Records.{gate_cell, step_cell, places, unused, all_zero, is_placed};

use crate::field::{Body, Record};
use crate::kind::{Axis, Kind};
use crate::sizes::Sizes;

impl Sizes {
    // The cell of a position.
    pub fn gate_cell(self, axis: Axis, gate: u16) -> usize
        ensures { result ≡ gate_cell self.gates axis gate }
    {
        match axis {
            Axis::X => gate as usize,
            Axis::Y => self.gates() as usize + gate as usize,
        }
    }

    // The cell of a step.
    pub(crate) fn step_cell(self, axis: Axis, slice: u16) -> usize
        ensures { result ≡ step_cell self.gates axis slice }
    {
        let gates = self.gates() as usize;
        match axis {
            Axis::X => 2 * gates + slice as usize,
            Axis::Y => 3 * gates - 1 + slice as usize,
        }
    }

    // How many gates, or slices, a record of a kind can name.
    fn places(self, kind: Kind) -> u16
        ensures { result ≡ places self.gates kind }
    {
        match kind {
            Kind::Step(_) => self.gates() - 1,
            Kind::Position(_) | Kind::Distance => self.gates(),
        }
    }
}

impl Body {
    // Whether the fields that a kind does not use are 0.
    fn is_rest_zero(self, kind: Kind) -> bool
        ensures { result ≡ all_zero (unused kind self) }
    {
        let tail = self.b4 == 0 && self.b5 == 0;
        match kind {
            Kind::Position(_) | Kind::Step(_) => self.b2 == 0 && self.b3 == 0 && tail,
            Kind::Distance => tail,
        }
    }
}

impl Record {
    pub(crate) fn is_placed(self, sizes: Sizes, kind: Kind) -> bool
        ensures { result ≡ is_placed sizes.gates kind self.head self.body }
    {
        let head = self.head;
        head.p < sizes.places(kind) && head.q == 0 && self.body.is_rest_zero(kind)
    }
}
