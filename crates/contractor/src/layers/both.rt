// The composition of two contractors.
ghost use Rattle.contractor.specs.Compositions.{both};
ghost use Rattle.contractor.specs.Composing.{both_keeps};

use super::{ceiling_over, either_stopped, height_over, need_over, use_part};
use crate::answer::{Answer, Verdict};
use crate::contractor::Contractor;
use tube::Row;

// The digits that a fault's path gets on its way up from each part.
const FIRST: u64 = 1;

const SECOND: u64 = 2;

// Uses its first part, and then its second on what the first left.
#[derive(Clone, Copy, Debug, Drop, PartialEq)]
pub struct Both<A, B> {
    pub first: A,
    pub second: B,
}

impl<A: Contractor, B: Contractor> Contractor for Both<A, B> {
    ghost value = { λ c. both (A.value c.first) (B.value c.second) };

    ghost keeps = { λ c. both_keeps _ _ (A.keeps c.first) (B.keeps c.second) };

    fn need(&self) -> usize {
        need_over(&self.first, &self.second)
    }

    fn height(&self) -> u8 {
        height_over(&self.first, &self.second)
    }

    fn ceiling(&self) -> u64 {
        ceiling_over(&self.first, &self.second)
    }

    fn narrow(&mut self, tube: &mut [Row]) -> Answer {
        let first = use_part(&mut self.first, tube);
        match first.verdict {
            Verdict::Empty(fault) => Answer::empty(fault.passed_up(FIRST), first.calls),
            Verdict::Kept(mark) => {
                let second = use_part(&mut self.second, tube);
                let calls = first.calls + second.calls;
                match second.verdict {
                    Verdict::Empty(fault) => Answer::empty(fault.passed_up(SECOND), calls),
                    Verdict::Kept(other) => Answer::kept(either_stopped(mark, other), calls),
                }
            }
        }
    }
}
