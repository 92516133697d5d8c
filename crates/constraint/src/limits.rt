// The squares between which that of a distance lies, and the distances that they leave.
ghost use Rattle.std.specs.Prelude.{pos, ◌≤ℤ◌};
ghost use Rattle.constraint.specs.Hulls.{greatest, Farthest, Nearest};

use crate::root::root;

#[derive(Clone, Copy)]
pub(crate) struct Limits {
    pub(crate) inner: i64,
    pub(crate) outer: i64,
    ghost inner_below: { inner ≤ℤ pos greatest },
    ghost outer_below: { outer ≤ℤ pos greatest },
}

impl Limits {
    // The greatest distance whose square is at most `outer`.
    pub(crate) fn far(self) -> i32
        requires { pos 0 ≤ℤ self.outer }
        ensures { Farthest self.outer result }
    {
        root(self.outer as u64) as i32
    }

    // The least distance whose square is at least `inner`: a root rounded up.
    pub(crate) fn near(self) -> i32
        ensures { Nearest self.inner result }
    {
        if self.inner <= 0 {
            0
        } else {
            root((self.inner - 1) as u64) as i32 + 1
        }
    }
}
