// The survey of a swim: from the bytes of its log to the report that is printed.
#![tactic(auto)]

mod examples;
mod printing;
mod surveying;
mod tracked;

pub use examples::small_logs_hold;
pub use printing::{input_limit, survey_page, write_survey};
pub use surveying::survey;
pub use swimlog::{PAGE_LENGTH, Page, report_page, write_report};
pub use tracked::ALLOWANCE;
