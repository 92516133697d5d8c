// The swim log, from its bytes to its records, the two nets that they fill, and the report that is printed.
#![tactic(auto)]

mod fault;
mod field;
mod filling;
mod kind;
mod layout;
mod log;
mod page;
mod place;
mod record;
mod report;
mod sizes;
mod slice;

pub use fault::{BadRecord, FieldFault, LogFault, RecordFault};
pub use filling::read_log;
pub use kind::Axis;
pub use layout::MAX_LENGTH;
pub use log::check_log;
pub use page::{PAGE_LENGTH, Page};
pub use report::{Report, report_page, write_report};
pub use sizes::{MAX_GATES, Sizes};
