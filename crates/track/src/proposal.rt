// An open proposal: contractors are applied to it, and it is committed or withdrawn.
ghost use Rattle.std.specs.Prelude.{◌≡◌, ◌-◌};
ghost use Rattle.std.specs.Result.{result_err};
ghost use Rattle.track.specs.Standings.{refusal_with, Using, Committing, Withdrawing};

use crate::answer::{Refused, Used};
use crate::refusal::TrackRefusal;
use crate::standing::{Emptied, Proposal, Rest};
use contractor::{Contractor, Verdict};
use tube::Row;

impl Proposal {
    // Uses a contractor on the work table and charges the calls that it answers.
    pub fn apply<C: Contractor>(
        self,
        contractor: &mut C,
        work: &mut [Row],
    ) -> Result<Used, Refused<Proposal>>
        ensures same { C.value contractor.new ≡ C.value contractor.old }
        ensures result { Using self (C.value contractor.old) work.old work.new result }
    {
        // No map_err: its closure would take the standing, which goes on below.
        if let Err(refusal) = self.check(contractor, work) {
            return Err(Refused {
                standing: self,
                refusal,
            });
        }
        let answer = contractor.narrow(work);
        let Proposal { mut account } = self;
        account.charge(answer.calls);
        match answer.verdict {
            Verdict::Kept(mark) => Ok(Used::Kept(Proposal { account }, mark)),
            Verdict::Empty(fault) => Ok(Used::Emptied(Emptied { account, fault })),
        }
    }

    // Whether a use is accepted, or why it would be refused, the smallest number first.
    fn check<C: Contractor>(&self, contractor: &C, work: &[Row]) -> Result<(), TrackRefusal>
        ensures { result_err result ≡ refusal_with self.now.account (C.value contractor.now) work.now }
    {
        contractor.check(work)?;
        if work.len() != self.account.cells {
            return Err(TrackRefusal::WrongLength);
        }
        if contractor.ceiling() > self.unspent() {
            return Err(TrackRefusal::OverAllowance);
        }
        Ok(())
    }

    // Makes the work table the committed one.
    pub fn commit(self, committed: &mut [Row], work: &[Row]) -> Result<Rest, Refused<Proposal>>
        ensures { Committing self committed.old committed.new work.now result }
    {
        // No map_err: its closure would take the standing, which goes on below.
        if let Err(refusal) = self.account.check_copy(committed, work) {
            return Err(Refused {
                standing: self,
                refusal,
            });
        }
        committed.copy_from_slice(work);
        let Proposal { account } = self;
        Ok(Rest { account })
    }

    // Gives the proposal up. No table is written, and what was used stays charged.
    pub fn withdraw(self) -> Rest
        ensures { Withdrawing self result }
    {
        let Proposal { account } = self;
        Rest { account }
    }

    // The calls that are left of the allowance.
    pub fn unspent(&self) -> u64
        ensures { result ≡ self.now.account.allowance - self.now.account.charged }
    {
        self.account.unspent()
    }
}
