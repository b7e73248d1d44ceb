// Shelf files judged from the first number to the last byte, with nothing written.
#![tactic(auto)]

pub mod judging;
pub mod reading;
