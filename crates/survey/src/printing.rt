// From the bytes of a log to the bytes that are printed.
ghost use Rattle.std.specs.Prelude.{◌≡◌, ℕ, List, take};
ghost use Rattle.swimlog.specs.Pages.{page_bytes};
ghost use Rattle.swimlog.specs.Report.{Written};
ghost use Rattle.survey.specs.Surveys.{printed};

use crate::surveying::survey;
use std::alloc::AllocError;
use swimlog::{MAX_LENGTH, Page, report_page, write_report};

// How many bytes of an input are enough: what is printed for the first so many is what is printed for all of them.
pub fn input_limit() -> usize
    ensures { (bytes : List ℕ) → printed (take result bytes) ≡ printed bytes }
{
    MAX_LENGTH + 1
}

// What is printed for a log.
pub fn survey_page(bytes: &[u8]) -> Page
    ensures { page_bytes result ≡ printed bytes.now }
{
    report_page(&survey(bytes))
}

// Adds what is printed for a log to a buffer, or leaves the buffer as it was where there is no memory.
#[tactic(auto, using(crate::proofs::Prints::written_as))]
pub fn write_survey(bytes: &[u8], out: &mut Vec<u8>) -> Result<(), AllocError>
    ensures { Written out.old.items (printed bytes.now) result out.new.items }
{
    write_report(&survey(bytes), out)
}
