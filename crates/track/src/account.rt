// The numbers that every standing of a track carries.
ghost use Rattle.std.specs.Prelude.{◌≡◌, ◌+◌, ◌-◌, ◌≤◌, true};
ghost use Rattle.std.specs.Result.{result_err};
ghost use Rattle.track.specs.Limits.{is_paid};
ghost use Rattle.track.specs.Refusals.{copy_refusal};

use crate::refusal::TrackRefusal;
use tube::Row;

// The length of the tables, the most calls that may be charged, and the calls charged so far.
#[derive(Clone, Copy, Debug, Eq, PartialEq)]
pub(crate) struct Account {
    pub(crate) cells: usize,
    pub(crate) allowance: u64,
    pub(crate) charged: u64,
    ghost paid: { is_paid allowance charged ≡ true },
}

impl Account {
    // The calls that are left of the allowance.
    pub(crate) fn unspent(self) -> u64
        ensures { result ≡ self.allowance - self.charged }
    {
        self.allowance - self.charged
    }

    // Charges calls that the allowance still covers.
    pub(crate) fn charge(&mut self, calls: u64)
        requires { self.old.charged + calls ≤ self.old.allowance }
        ensures cells { self.new.cells ≡ self.old.cells }
        ensures allowance { self.new.allowance ≡ self.old.allowance }
        ensures charged { self.new.charged ≡ self.old.charged + calls }
    {
        self.charged += calls;
    }

    // Whether one table may be copied to the other, or why not. Both are the caller's and lent to one call, so no struct holds the two.
    pub(crate) fn check_copy(self, committed: &[Row], work: &[Row]) -> Result<(), TrackRefusal>
        ensures { result_err result ≡ copy_refusal self.cells committed.now work.now }
    {
        if committed.len() == self.cells && work.len() == self.cells {
            Ok(())
        } else {
            Err(TrackRefusal::WrongLength)
        }
    }
}
