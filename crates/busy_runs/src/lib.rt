// Runs with counters and the page of busy addresses. `specs/` says what they are; nothing here runs.
#![tactic(auto)]

// The bytes that a page must have room for: 256 lines of 35.
pub const PAGE_SIZE: usize = 8960;
