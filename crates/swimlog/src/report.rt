// What is printed for a swim log, put on a page.
use crate::fault::LogFault;
use crate::sizes::Sizes;
use contractor::{Fault, Mark};
use tube::{MAX_CELLS, Row};

mod writing;

pub use writing::{report_page, write_report};

#[derive(Clone, Copy)]
pub enum Report {
    // A tube that holds every trajectory that obeys the log.
    Kept {
        calls: u64,
        mark: Mark,
        sizes: Sizes,
        // No heap, since the survey is linked into programs that have none: as many rows as the longest tube, and the first few count.
        // Not an ArrayVec of just those: the report could not be Copy, and the sizes alone would no longer show that a gate's cell is one of its rows.
        tube: [Row; MAX_CELLS],
    },
    // No trajectory obeys it.
    Empty {
        fault: Fault,
        calls: u64,
    },
    // It could not be read.
    Refused(LogFault),
}
