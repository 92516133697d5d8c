// A step: one cell is the sum of two others.
ghost use Rattle.std.specs.Prelude.{◌≡◌, true};
ghost use Rattle.constraint.specs.Makings.{are_step_cells};

mod contracting;

// Cell `to` is cell `from` plus cell `by`.
#[derive(Clone, Copy, Debug, Eq, PartialEq)]
pub struct Step {
    number: u16,
    from: u16,
    by: u16,
    to: u16,
    ghost placed: { are_step_cells from by to ≡ true },
}
