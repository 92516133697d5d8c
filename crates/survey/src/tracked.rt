// One contractor, used once on a track of its own.
ghost use Rattle.std.specs.Prelude.{◌≡◌, true, length, None};
ghost use Rattle.tube.specs.Tubes.{is_tube};
ghost use Rattle.contractor.specs.Contractors.{Fair};
ghost use Rattle.survey.specs.Tracks.{Fresh, first_refusal, Ended};

use contractor::{Answer, Contractor};
use track::{Proposal, Used, make};
use tube::{MAX_CELLS, Row};

// The calls that a survey may charge.
pub const ALLOWANCE: u64 = 1_000_000;

// A proposal on a new track over a tube.
fn open(table: &[Row], work: &mut [Row]) -> Proposal
    requires tube { is_tube table.now ≡ true }
    requires sized { length work.old ≡ length table.now }
    ensures fresh { Fresh (length table.now) result }
    ensures copied { work.new ≡ table.now }
{
    let rest = make(table, ALLOWANCE).unwrap();
    rest.propose(table, work).unwrap()
}

// Makes the work table the committed one, and tells the calls charged.
fn commit(proposal: Proposal, table: &mut [Row], work: &[Row]) -> u64
    requires table { length table.old ≡ proposal.account.cells }
    requires work { length work.now ≡ proposal.account.cells }
    ensures charged { result ≡ proposal.account.charged }
    ensures copied { table.new ≡ work.now }
{
    match proposal.commit(table, work) {
        Ok(rest) => rest.charged(),
        // No unwrap: a refused proposal can't be dropped.
        Err(refused) => {
            let _ = refused.standing.withdraw();
            unreachable()
        }
    }
}

// Uses a contractor on a tube, by a proposal that is committed, or closed where it is emptied.
pub(crate) fn use_on_track<C: Contractor>(contractor: &mut C, table: &mut [Row]) -> Answer
    requires { first_refusal (C.value contractor.old) table.old ≡ None }
    ensures ended { Ended (C.value contractor.old) table.old table.new result }
    ensures fair { Fair (C.value contractor.old) table.old ((C.value contractor.old).narrowed table.old) }
{
    // No heap: as many rows as the longest tube.
    let mut rows = [Row { low: 0, high: 0 }; MAX_CELLS];
    let work = &mut rows[0..table.len()];
    match open(table, work).apply(contractor, work) {
        Ok(Used::Kept(proposal, mark)) => Answer::kept(mark, commit(proposal, table, work)),
        Ok(Used::Emptied(emptied)) => {
            let (fault, rest) = emptied.close();
            Answer::empty(fault, rest.charged())
        }
        // No unwrap: a refused proposal can't be dropped.
        Err(refused) => {
            let _ = refused.standing.withdraw();
            unreachable()
        }
    }
}
