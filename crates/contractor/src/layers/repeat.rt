// The repetition of a contractor.
ghost use Rattle.std.specs.Prelude.{◌≡◌, ◌*◌, ◌≤◌, length};
ghost use Rattle.contractor.specs.Contractors.{Accepted};
ghost use Rattle.contractor.specs.Counts.{most_rounds};
ghost use Rattle.contractor.specs.Refusals.{most_calls};
ghost use Rattle.contractor.specs.Repetitions.{Round, repeat};
ghost use Rattle.contractor.specs.RoundCounts.{count_of};
ghost use Rattle.contractor.specs.Repeating.{counted_keeps};

use super::rounds::Rounds;
use super::{capped_calls, height_above, use_part};
use crate::answer::{Answer, Mark, Verdict};
use crate::contractor::Contractor;
use tube::{MAX_CELLS, Row};

// The digit that a fault's path gets on its way up.
const DIGIT: u64 = 4;

// Uses its part in rounds, until one changes no cell, empties, or was the last.
#[derive(Clone, Copy, Debug, Drop, PartialEq)]
pub struct Repeat<C> {
    pub rounds: Rounds,
    pub part: C,
}

// One round, with a spare table as long as the tube: the answer where it is the last, and its calls added to those so far.
fn round<C: Contractor>(
    part: &mut C,
    tube: &mut [Row],
    before: &mut [Row],
    calls: &mut u64,
) -> Option<Answer>
    requires accepted { Accepted (C.value part.old) tube.old }
    requires sized { length before.old ≡ length tube.old }
    requires few { calls.old ≤ most_rounds * most_calls }
    ensures same { C.value part.new ≡ C.value part.old }
    ensures round { Round (C.value part.old) tube.old calls.old tube.new calls.new result }
{
    before.copy_from_slice(tube);
    let used = use_part(part, tube);
    *calls += used.calls;
    match used.verdict {
        Verdict::Kept(mark) => {
            if *before == *tube {
                Some(Answer::kept(mark, *calls))
            } else {
                None
            }
        }
        Verdict::Empty(fault) => Some(Answer::empty(fault.passed_up(DIGIT), *calls)),
    }
}

impl<C: Contractor> Contractor for Repeat<C> {
    ghost value = { λ c. repeat (count_of c.rounds) (C.value c.part) };

    ghost keeps = { λ c. counted_keeps _ _ c.rounds.counted (C.keeps c.part) };

    fn need(&self) -> usize {
        self.part.need()
    }

    fn height(&self) -> u8 {
        height_above(self.part.height())
    }

    fn ceiling(&self) -> u64 {
        capped_calls(u64::from(self.rounds.get()) * self.part.ceiling())
    }

    fn narrow(&mut self, tube: &mut [Row]) -> Answer {
        // No heap: as many rows as the longest tube.
        let mut rows = [Row { low: 0, high: 0 }; MAX_CELLS];
        let before = &mut rows[0..tube.len()];
        let mut calls = 0;
        for _ in 0..self.rounds.get() {
            if let Some(answer) = round(&mut self.part, tube, before, &mut calls) {
                return answer;
            }
        }
        Answer::kept(Mark::Stopped, calls)
    }
}
