// A bound: a cell lies between two numbers.
ghost use Rattle.std.specs.Prelude.{◌≡◌, true};
ghost use Rattle.constraint.specs.Makings.{is_cell};

use tube::Interval;

mod contracting;

#[derive(Clone, Copy, Debug, Eq, PartialEq)]
pub struct Bound {
    number: u16,
    cell: u16,
    span: Interval,
    ghost placed: { is_cell cell ≡ true },
}
