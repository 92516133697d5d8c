// Making an interval, from numbers or from a row, reading its ends, and cutting it.
ghost use Rattle.std.specs.Prelude.{◌≡◌};
ghost use Rattle.tube.specs.Intervals.{row_of, row_if_any, row_if_made, made};
ghost use Rattle.tube.specs.Tubes.{contains, cut, hull};

use super::Interval;
use crate::fault::MakingFault;
use crate::row::Row;

impl Interval {
    // The farthest coordinate, in millimetres.
    pub const REACH: i32 = 536_870_912;

    pub fn new(low: i32, high: i32) -> Result<Self, MakingFault>
        ensures { row_if_made result ≡ made low high }
    {
        if -Self::REACH <= low && low <= high && high <= Self::REACH {
            Ok(Interval { low, high })
        } else {
            Err(MakingFault::BadValue)
        }
    }

    pub fn low(self) -> i32
        ensures { result ≡ (row_of self).low }
    {
        self.low
    }

    pub fn high(self) -> i32
        ensures { result ≡ (row_of self).high }
    {
        self.high
    }

    pub fn contains(self, v: i32) -> bool
        ensures { result ≡ contains (row_of self) v }
    {
        self.low <= v && v <= self.high
    }

    // What the interval shares with the numbers from low to high, where it shares any.
    pub fn cut(self, low: i32, high: i32) -> Option<Self>
        ensures { row_if_any result ≡ cut (row_of self) low high }
    {
        let low = self.low.max(low);
        let high = self.high.min(high);
        if low <= high {
            Some(Interval { low, high })
        } else {
            None
        }
    }

    // The least interval that holds both.
    pub fn hull(self, other: Self) -> Self
        ensures { row_of result ≡ hull (row_of self) (row_of other) }
    {
        let Row { low, high } = Row::from(self).hull(Row::from(other));
        Interval { low, high }
    }
}

impl TryFrom<Row> for Interval {
    type Error = MakingFault;

    ghost try_from_gives = { λ row r. row_if_made r ≡ made row.low row.high };

    fn try_from(row: Row) -> Result<Self, MakingFault> {
        Interval::new(row.low, row.high)
    }
}

impl From<Interval> for Row {
    ghost from_gives = { λ i r. r ≡ row_of i };

    fn from(interval: Interval) -> Row {
        Row {
            low: interval.low,
            high: interval.high,
        }
    }
}
