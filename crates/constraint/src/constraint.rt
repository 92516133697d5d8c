// A constraint of any kind, itself a contractor.
ghost use Rattle.std.specs.Prelude.{◌≡◌};
ghost use Rattle.constraint.specs.Kinds.{constraint_value};
ghost use Rattle.constraint.specs.Mentions.{cell_slots};
ghost use Rattle.constraint.specs.Keeping.{constraint_keeps};

use crate::bound::Bound;
use crate::range::Range;
use crate::step::Step;
use contractor::{Answer, Contractor};
use tube::Row;

// An enum and no dyn Contractor: a net has its records by value, in fixed memory.
#[derive(Clone, Copy, Debug, Eq, PartialEq)]
pub enum Constraint {
    Bound(Bound),
    Step(Step),
    Range(Range),
}

impl Constraint {
    // The cells that it mentions, in three slots of fixed memory: the last stands again in each slot that is left.
    pub fn cells(self) -> [u16; 3]
        ensures { result ≡ cell_slots self }
    {
        match self {
            Constraint::Bound(k) => k.cells(),
            Constraint::Step(k) => k.cells(),
            Constraint::Range(k) => k.cells(),
        }
    }
}

impl Contractor for Constraint {
    ghost value = { constraint_value };

    ghost keeps = { λ k. constraint_keeps k };

    fn need(&self) -> usize {
        match *self {
            Constraint::Bound(k) => k.need(),
            Constraint::Step(k) => k.need(),
            Constraint::Range(k) => k.need(),
        }
    }

    fn height(&self) -> u8 {
        0
    }

    fn ceiling(&self) -> u64 {
        1
    }

    fn narrow(&mut self, tube: &mut [Row]) -> Answer {
        match *self {
            Constraint::Bound(mut k) => k.narrow(tube),
            Constraint::Step(mut k) => k.narrow(tube),
            Constraint::Range(mut k) => k.narrow(tube),
        }
    }
}
