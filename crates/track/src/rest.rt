// A track at rest: its making, what it tells, and the call that opens a proposal.
ghost use Rattle.std.specs.Prelude.{◌≡◌};
ghost use Rattle.track.specs.Standings.{Made, Proposing};

use crate::account::Account;
use crate::answer::Refused;
use crate::refusal::TrackRefusal;
use crate::standing::{Proposal, Rest};
use tube::{Row, is_tube};

// The greatest allowance of calls.
pub const MAX_ALLOWANCE: u64 = 1_000_000_000_000;

// A track at rest over a first tube. What every history of it keeps is part of the contract.
pub fn make(committed: &[Row], allowance: u64) -> Result<Rest, TrackRefusal>
    ensures { Made committed.now allowance result }
{
    if !is_tube(committed) {
        return Err(TrackRefusal::NotATube);
    }
    if allowance < 1 || allowance > MAX_ALLOWANCE {
        return Err(TrackRefusal::BadAllowance);
    }
    Ok(Rest {
        account: Account {
            cells: committed.len(),
            allowance,
            charged: 0,
        },
    })
}

impl Rest {
    // Opens a proposal: the work table becomes a copy of the committed one.
    pub fn propose(self, committed: &[Row], work: &mut [Row]) -> Result<Proposal, Refused<Rest>>
        ensures { Proposing self committed.now work.old work.new result }
    {
        // No map_err: its closure would take the standing, which goes on below.
        if let Err(refusal) = self.account.check_copy(committed, work) {
            return Err(Refused {
                standing: self,
                refusal,
            });
        }
        work.copy_from_slice(committed);
        Ok(Proposal {
            account: self.account,
        })
    }

    // The calls charged so far.
    pub fn charged(&self) -> u64
        ensures { result ≡ self.now.account.charged }
    {
        self.account.charged
    }

    // The most calls that may be charged.
    pub fn allowance(&self) -> u64
        ensures { result ≡ self.now.account.allowance }
    {
        self.account.allowance
    }
}
