// Making a range, and what it does as a contractor.
ghost use Rattle.std.specs.Prelude.{◌≡◌};
ghost use Rattle.constraint.specs.Kinds.{range_value, MadeRange};
ghost use Rattle.constraint.specs.Makings.{is_coordinate};
ghost use Rattle.constraint.specs.Mentions.{range_cells, in_slots};
ghost use Rattle.constraint.specs.Keeping.{range_value_keeps};

use super::{Beacon, Range};
use crate::axis::Axis;
use crate::cells::interval_at;
use crate::distances::Distances;
use contractor::{Answer, Contractor};
use tube::{Interval, MAX_CELLS, MakingFault, Row};

impl Range {
    // The cause by which its faults tell that it is a range.
    pub const CAUSE: u8 = 3;

    pub fn new(
        number: u16,
        x: usize,
        y: usize,
        beacon: Beacon,
        nearest: i32,
        farthest: i32,
    ) -> Result<Self, MakingFault>
        ensures { MadeRange number x y beacon.x beacon.y nearest farthest result }
    {
        if x >= MAX_CELLS || y >= MAX_CELLS {
            return Err(MakingFault::CellBeyondTube);
        }
        if x == y {
            return Err(MakingFault::EqualCells);
        }
        if !is_coordinate(beacon.x) || !is_coordinate(beacon.y) {
            return Err(MakingFault::BadValue);
        }
        let distances = Distances::new(nearest, farthest)?;
        Ok(Range {
            number,
            x: x as u16,
            y: y as u16,
            beacon,
            distances,
        })
    }

    // The cells that it mentions, in three slots.
    pub(crate) fn cells(self) -> [u16; 3]
        ensures { result ≡ in_slots (range_cells self) }
    {
        [self.x, self.y, self.y]
    }
}

fn is_coordinate(v: i32) -> bool
    ensures { result ≡ is_coordinate v }
{
    -Interval::REACH <= v && v <= Interval::REACH
}

impl Contractor for Range {
    ghost value = { range_value };

    ghost keeps = { λ k. range_value_keeps k };

    fn need(&self) -> usize {
        self.x.max(self.y) as usize + 1
    }

    fn height(&self) -> u8 {
        0
    }

    fn ceiling(&self) -> u64 {
        1
    }

    fn narrow(&mut self, tube: &mut [Row]) -> Answer {
        // Both are read before either is written.
        let x = Axis {
            cell: interval_at(tube, self.x),
            beacon: self.beacon.x,
        };
        let y = Axis {
            cell: interval_at(tube, self.y),
            beacon: self.beacon.y,
        };
        let x_limits = self.distances.limits(y);
        let y_limits = self.distances.limits(x);
        // Most uses narrow nothing, and then nothing is written.
        if x.is_whole(x_limits) && y.is_whole(y_limits) {
            return Answer::settled();
        }
        let Some(new_x) = x.within(x_limits) else {
            return Answer::empty_at(Range::CAUSE, self.number, self.x as usize);
        };
        let Some(new_y) = y.within(y_limits) else {
            return Answer::empty_at(Range::CAUSE, self.number, self.y as usize);
        };
        tube[self.x as usize] = Row::from(new_x);
        tube[self.y as usize] = Row::from(new_y);
        Answer::settled()
    }
}
