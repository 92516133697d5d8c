// Making one, and what it does as a contractor.
ghost use Rattle.std.specs.Prelude.{◌≡◌, ◌<◌, true, length};
ghost use Rattle.tube.specs.Intervals.{row_of};
ghost use Rattle.tube.specs.Tubes.{is_tube, cell};
ghost use Rattle.own_contractor.specs.AtMosts.{at_most_value, MadeAtMost};
ghost use Rattle.own_contractor.specs.Keeping.{at_most_keeps};

use super::AtMost;
use contractor::{Answer, Contractor};
use tube::{Interval, MAX_CELLS, MakingFault, Row};

impl AtMost {
    // Not one of the library's causes, which are small.
    pub const CAUSE: u8 = 200;

    pub fn new(number: u16, behind: usize, ahead: usize) -> Result<Self, MakingFault>
        ensures { MadeAtMost number behind ahead result }
    {
        if behind >= MAX_CELLS || ahead >= MAX_CELLS {
            return Err(MakingFault::CellBeyondTube);
        }
        if behind == ahead {
            return Err(MakingFault::EqualCells);
        }
        Ok(AtMost {
            number,
            behind,
            ahead,
        })
    }
}

// A cell of a tube. `narrow` is used on tubes alone, so that the row is an interval: it is proved, and not tested.
// The library has the like for itself. It could not hand it out: a public function asks nothing of its callers, and would have to test.
fn interval_at(tube: &[Row], index: usize) -> Interval
    requires tube { is_tube tube.now ≡ true }
    requires within { index < length tube.now }
    ensures { row_of result ≡ cell tube.now index }
{
    let row = tube[index];
    Interval {
        low: row.low,
        high: row.high,
    }
}

impl Contractor for AtMost {
    ghost value = { at_most_value };

    ghost keeps = { λ k. at_most_keeps k.number k.behind k.ahead k.placed };

    fn need(&self) -> usize {
        self.behind.max(self.ahead) + 1
    }

    fn height(&self) -> u8 {
        0
    }

    fn ceiling(&self) -> u64 {
        1
    }

    fn narrow(&mut self, tube: &mut [Row]) -> Answer {
        let behind = interval_at(tube, self.behind);
        let ahead = interval_at(tube, self.ahead);
        let Some(new_behind) = behind.cut(-Interval::REACH, ahead.high) else {
            return Answer::empty_at(AtMost::CAUSE, self.number, self.behind);
        };
        let Some(new_ahead) = ahead.cut(behind.low, Interval::REACH) else {
            return Answer::empty_at(AtMost::CAUSE, self.number, self.ahead);
        };
        tube[self.behind] = Row::from(new_behind);
        tube[self.ahead] = Row::from(new_ahead);
        Answer::settled()
    }
}
