// A page: a fixed room for bytes, filled from its start. No report is longer than a page, so that writing one wants no memory.
use crate::sizes::MAX_GATES;
use arrayvec::ArrayVec;

mod putting;

// The most bytes that the first line of a report has, and that each line of a gate has.
const KEPT_LINE_LENGTH: usize = 34;

const GATE_LINE_LENGTH: usize = 52;

// The length of the longest report, which has a line for each of as many gates as a log may have.
pub const PAGE_LENGTH: usize = KEPT_LINE_LENGTH + GATE_LINE_LENGTH * MAX_GATES as usize;

#[derive(Drop)]
pub struct Page {
    bytes: ArrayVec<u8, PAGE_LENGTH>,
}
