// Where the parts of a swim log stand: the sizes, then all heads, then all bodies.
ghost use Rattle.std.specs.Prelude.{◌≡◌};
ghost use Rattle.swimlog.specs.Format.{head_start, body_start, log_length};

use crate::sizes::{MAX_RECORDS, Sizes};

const SIZES_LENGTH: usize = 4;

const HEAD_LENGTH: usize = 6;

const BODY_LENGTH: usize = 24;

// The length of the longest log.
pub const MAX_LENGTH: usize = SIZES_LENGTH + (HEAD_LENGTH + BODY_LENGTH) * MAX_RECORDS as usize;

pub(crate) fn head_start(index: u16) -> usize
    ensures { result ≡ head_start index }
{
    SIZES_LENGTH + HEAD_LENGTH * index as usize
}

impl Sizes {
    pub(crate) fn body_start(self, index: u16) -> usize
        ensures { result ≡ body_start self.records index }
    {
        SIZES_LENGTH + HEAD_LENGTH * self.records() as usize + BODY_LENGTH * index as usize
    }

    pub(crate) fn log_length(self) -> usize
        ensures { result ≡ log_length self.records }
    {
        SIZES_LENGTH + (HEAD_LENGTH + BODY_LENGTH) * self.records() as usize
    }
}
