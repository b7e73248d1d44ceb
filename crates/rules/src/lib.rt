// The rules of admission and the third demand. `specs/` states them, `proofs/` proves the demand;
// nothing here runs.
#![tactic(auto)]

// The bytes of a stack sheet: a word for each address.
pub const SHEET_SIZE: usize = 512;

// The most bytes of a routine list: two for each of 64 routines.
pub const MAX_LIST_SIZE: usize = 128;
