// A seat's place among the others.
ghost use Rattle.std.specs.Prelude.{◌≡◌, ◌<◌, length, get_or};
ghost use Rattle.slices.specs.Lists.{mapped};
ghost use Rattle.model.specs.State.{start_state};
ghost use Rattle.run_numbers.specs.Runs.{state_of};
ghost use Rattle.seats.specs.Room.{max_seats};
ghost use Rattle.seats.specs.Turn.{seat_after};
ghost use Rattle.scheduling.specs.internal.Places.{with_numbers, EightNumbers};

use super::SeatNumbers;
use model::State;
use run_numbers::StateNumbers;

// The state of seat i. Only a function that takes the array by itself can tell its length.
pub fn state_at(states: [StateNumbers; 8], i: usize) -> State
    requires { i < max_seats }
    ensures { (result ≡ get_or (mapped state_of states) i start_state) × (length states ≡ max_seats) }
{
    State::from(states[i])
}

// The numbers of the seats, put together: states and roll positions, as many as there are seats.
pub fn seats_of(states: [StateNumbers; 8], positions: [usize; 8]) -> SeatNumbers
    ensures { (result ≡ (states, positions)) × EightNumbers states positions }
{
    SeatNumbers(states, positions)
}

// The numbers of the seats with a state and a roll position put at seat i.
pub fn with_seat(seats: SeatNumbers, i: usize, s: State, words: usize) -> SeatNumbers
    requires { i < max_seats }
    ensures { result ≡ with_numbers seats i s words }
{
    let mut states = seats.0;
    states[i] = StateNumbers::from(s);
    let mut positions = seats.1;
    positions[i] = words;
    SeatNumbers(states, positions)
}

// The seat after seat i of n, 0 after the last.
pub fn seat_after(n: usize, i: usize) -> usize
    requires { i < n }
    ensures { result ≡ seat_after n i }
{
    if i + 1 == n { 0 } else { i + 1 }
}
