// Which seat runs in a turn: where the seats have their parts and places, the rules of a call, and the
// search for the first seat that can go on.
#![tactic(auto)]

pub mod lengths;
pub mod places;
pub mod refusals;
pub mod search;

use run_numbers::StateNumbers;

// What the seats have beside the buffers, as C reads it: states, and how many words stand on their
// rolls.
#[repr(C)]
#[derive(Clone, Copy)]
pub struct SeatNumbers(pub [StateNumbers; 8], pub [usize; 8]);

// How long the seats' parts of the keys and of the rolls are, as C reads it.
#[repr(C)]
#[derive(Clone, Copy)]
pub struct SeatLengths(pub [usize; 8], pub [usize; 8]);
