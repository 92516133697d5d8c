// Tubes in whole millimetres: the rows of a table, the intervals that they may be, and the test that a table is a tube.
#![tactic(auto)]

mod fault;
mod interval;
mod row;
mod table;

pub use fault::MakingFault;
pub use interval::Interval;
pub use row::Row;
pub use table::{MAX_CELLS, is_tube};
