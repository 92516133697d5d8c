// Making a net, and filling it.
ghost use Rattle.std.specs.Prelude.{◌≡◌, [], length, pos};
ghost use Rattle.contractor.specs.RoundCounts.{count_of};
ghost use Rattle.constraint.specs.Constraints.{bound};
ghost use Rattle.constraint.specs.Kinds.{constraint_value};
ghost use Rattle.net.specs.Records.{records, rounds_of, push_answer, pushed};

use super::{MAX_RECORDS, Net};
use constraint::{Bound, Constraint};
use contractor::{BuildRefusal, Rounds};

// What stands in a table's free places.
fn filler() -> Constraint
    ensures { constraint_value result ≡ bound 0 0 (pos 0) (pos 0) }
{
    Constraint::Bound(Bound::new(0, 0, 0, 0).unwrap())
}

impl Net {
    // A net with no records.
    pub fn new(rounds: Rounds) -> Self
        ensures records { records result ≡ [] }
        ensures rounds { rounds_of result ≡ count_of rounds }
    {
        Net {
            table: [filler(); MAX_RECORDS],
            count: 0,
            rounds,
        }
    }

    // How many records it holds.
    pub fn len(&self) -> usize
        ensures { result ≡ length (records self.now) }
    {
        self.count
    }

    // Its records, in order.
    pub fn records(&self) -> &[Constraint]
        ensures { result.now ≡ records self.now }
    {
        &self.table[0..self.count]
    }

    pub fn rounds(&self) -> Rounds
        ensures { count_of result ≡ rounds_of self.now }
    {
        self.rounds
    }

    // One more record, at the end.
    pub fn push(&mut self, constraint: Constraint) -> Result<(), BuildRefusal>
        ensures answer { result ≡ push_answer (records self.old) }
        ensures records { records self.new ≡ pushed (records self.old) constraint }
        ensures rounds { rounds_of self.new ≡ rounds_of self.old }
    {
        if self.count == MAX_RECORDS {
            return Err(BuildRefusal::NetFull);
        }
        self.table[self.count] = constraint;
        self.count += 1;
        Ok(())
    }

    // Lets go of all records.
    pub fn clear(&mut self)
        ensures records { records self.new ≡ [] }
        ensures rounds { rounds_of self.new ≡ rounds_of self.old }
    {
        self.count = 0;
    }
}
