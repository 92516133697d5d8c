// Making one, and what it does as a contractor.
ghost use Rattle.std.specs.Prelude.{◌≡◌, true, false, Some, None};
ghost use Rattle.figures.specs.Idles.{are_figures};
ghost use Rattle.figures.specs.Values.{idle_value};
ghost use Rattle.figures.specs.Keeping.{idle_keeps};

use super::Idle;
use contractor::{Answer, Contractor, Mark};
use tube::Row;

impl Idle {
    // None where a figure is more than any contractor may tell.
    pub fn new(need: usize, height: u8, ceiling: u64) -> Option<Self>
        ensures { elim result [ Some k ↦ (are_figures need height ceiling ≡ true) × (k.need ≡ need) × (k.height ≡ height) × (k.ceiling ≡ ceiling) | None ↦ are_figures need height ceiling ≡ false ] }
    {
        if need <= 513 && height <= 17 && ceiling <= 1_000_000_001 {
            Some(Idle {
                need,
                height,
                ceiling,
            })
        } else {
            None
        }
    }
}

impl Contractor for Idle {
    ghost value = { idle_value };

    ghost keeps = { λ k. idle_keeps k.need k.height k.ceiling k.limited };

    fn need(&self) -> usize {
        self.need
    }

    fn height(&self) -> u8 {
        self.height
    }

    fn ceiling(&self) -> u64 {
        self.ceiling
    }

    fn narrow(&mut self, _tube: &mut [Row]) -> Answer {
        Answer::kept(Mark::Settled, 0)
    }
}
