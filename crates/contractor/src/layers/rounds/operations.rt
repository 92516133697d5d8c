// Making a count of rounds, and reading it.
ghost use Rattle.std.specs.Prelude.{◌≡◌};
ghost use Rattle.contractor.specs.RoundCounts.{count_of, count_if_made, made};

use super::Rounds;
use crate::build::BuildRefusal;

impl Rounds {
    pub const MAX: u32 = 1_000;

    pub fn new(count: u32) -> Result<Self, BuildRefusal>
        ensures { count_if_made result ≡ made count }
    {
        if 1 <= count && count <= Self::MAX {
            Ok(Rounds { count })
        } else {
            Err(BuildRefusal::RoundsOutOfRange)
        }
    }

    pub fn get(self) -> u32
        ensures { result ≡ count_of self }
    {
        self.count
    }
}
