// What every call of the host gives: the record after it, and a report.
use cache::slots::Counts;
use registers::record::Processor;

// The answer, run's steps and the four counts.
// Kept: the answer is document 01's number, 0 for none: C's record.
#[repr(C)]
#[derive(Clone, Copy, Debug, PartialEq, Eq)]
pub struct Report {
    pub answer: u64,
    pub steps: u64,
    pub counts: Counts,
}

// The record after the call, and its report.
#[repr(C)]
#[derive(Clone, Copy, Debug, PartialEq, Eq)]
pub struct Answer {
    pub processor: Processor,
    pub report: Report,
}
