// A range: the distance of a point from a beacon lies between two numbers.
ghost use Rattle.std.specs.Prelude.{◌≡◌, true};
ghost use Rattle.constraint.specs.Makings.{is_range};

use crate::distances::Distances;

mod contracting;

// Where a beacon stands, in millimetres.
#[derive(Clone, Copy, Debug, Eq, PartialEq)]
pub struct Beacon {
    pub x: i32,
    pub y: i32,
}

// The point is in the cells x and y.
#[derive(Clone, Copy, Debug, Eq, PartialEq)]
pub struct Range {
    number: u16,
    x: u16,
    y: u16,
    beacon: Beacon,
    distances: Distances,
    ghost placed: { is_range x y beacon.x beacon.y distances.nearest distances.farthest ≡ true },
}
