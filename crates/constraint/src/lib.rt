// The three constraints that a swim log turns into: a bound, a step and a range.
#![tactic(auto)]

mod axis;
mod bound;
mod cells;
mod constraint;
mod distances;
mod limits;
mod range;
mod root;
mod step;
mod sum;

pub use bound::Bound;
pub use constraint::Constraint;
pub use range::{Beacon, Range};
pub use step::Step;
