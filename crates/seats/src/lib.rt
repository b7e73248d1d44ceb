// What a turn answers, `Result<Option<SeatTurn>, TurnRefusal>`, and the limits of a call. `specs/` says
// what a turn and a list of turns are, and what is promised of them; nothing here runs.
#![tactic(auto)]

use model::Stop;

// The most seats of a room, and the most steps of a slice. Where an array has a place for each seat
// its type says 8.
pub const MAX_SEATS: usize = 8;

pub const MAX_SLICE: u32 = 1000;

// Why a turn's call is refused, in the order in which its rules are judged.
#[derive(Clone, Copy, Debug, PartialEq, Eq)]
pub enum TurnRefusal {
    BadSeats,
    BadSlice,
    BadBuffers,
    BadPositions,
}

// The seat that ran in a turn, the seat after it, and stop, steps and cycles of its slice. A turn in
// which no seat can go on has none.
#[derive(Clone, Copy)]
pub struct SeatTurn {
    pub seat: usize,
    pub next: usize,
    pub stop: Stop,
    pub steps: u32,
    pub cycles: u32,
}
