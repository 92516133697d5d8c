// The one interface of all contractors.
ghost use Rattle.std.specs.Prelude.{◌≡◌};
ghost use Rattle.std.specs.Result.{result_err};
ghost use Rattle.contractor.specs.Contractors.{Value, Keeps, Accepted, Narrowed, Outcome, refusal, outcome};

use crate::answer::Answer;
use crate::refusal::{MAX_CALLS, MAX_LAYERS, UseRefusal};
use tube::{Row, is_tube};

pub trait Contractor {
    // What the contractor is, as a value: its relation, its figures and what it does to each tube.
    ghost value: { Self → Value };

    // The least number of cells that it works on.
    fn need(&self) -> usize
        ensures { result ≡ (value self.now).need };

    // How many layers stand above its lowest part. Not provided, though constraints all tell 0 here and 1 below: a body would have to keep the clause for every contractor, layers too.
    fn height(&self) -> u8
        ensures { result ≡ (value self.now).height };

    // The most calls that one use makes.
    fn ceiling(&self) -> u64
        ensures { result ≡ (value self.now).ceiling };

    // Uses the contractor on a tube that it is not refused on. Layers call this of their parts, so that a tube is looked through once, at the top.
    fn narrow(&mut self, tube: &mut [Row]) -> Answer
        requires { Accepted (value self.old) tube.old }
        ensures same { value self.new ≡ value self.old }
        ensures answer { record { answer = result; tube = tube.new } ≡ (value self.old).narrowed tube.old };

    // Whether a use on this table would be taken, and why not, the smallest number first.
    fn check(&self, table: &[Row]) -> Result<(), UseRefusal>
        ensures { result_err result ≡ refusal (value self.now) table.now }
    {
        if !is_tube(table) || table.len() < self.need() {
            Err(UseRefusal::NotATube)
        } else if self.height() > MAX_LAYERS {
            Err(UseRefusal::TooHigh)
        } else if self.ceiling() > MAX_CALLS {
            Err(UseRefusal::TooCostly)
        } else {
            Ok(())
        }
    }

    // The checked use, for everybody: a refusal that leaves the table as it was, or the answer.
    fn contract(&mut self, table: &mut [Row]) -> Result<Answer, UseRefusal>
        ensures same { value self.new ≡ value self.old }
        ensures outcome { record { result = result; table = table.new } ≡ outcome (value self.old) table.old }
    {
        self.check(table)?;
        Ok(self.narrow(table))
    }

    // It keeps the meaning of a contractor.
    ghost keeps: { (c : Self) → Keeps (value c) };
}
