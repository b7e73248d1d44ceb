// The rules of a turn's call.
ghost use Rattle.std.specs.Prelude.{◌≡◌, ◌≤◌};
ghost use Rattle.slices.specs.Lists.{mapped};
ghost use Rattle.run_numbers.specs.Runs.{state_of};
ghost use Rattle.seats.specs.Room.{max_seats};
ghost use Rattle.seats.specs.Turn.{bad_buffers, bad_position, any_of, turn_fault};
ghost use Rattle.scheduling.specs.Numbers.{room_of};

use super::lengths::adds_up;
use super::{SeatLengths, SeatNumbers};
use run_numbers::StateNumbers;
use seats::{MAX_SEATS, MAX_SLICE, TurnRefusal};
use slices::BANK_SIZE;

// Whether a buffer is not as long as n seats fill it.
#[tactic(auto, unfolding(seats::specs::Turn::bad_buffers))]
fn bad_buffers(
    n: usize,
    opcodes: &[u8],
    arguments: &[u8],
    keys: &[u8],
    ram: &[u8],
    stack: &[u8],
    rolls: &[u16],
    lengths: SeatLengths,
) -> bool
    requires { n ≤ max_seats }
    ensures { result ≡ bad_buffers n opcodes.now arguments.now keys.now ram.now stack.now rolls.now lengths.0 lengths.1 }
{
    let bytes = BANK_SIZE * n;
    let key_lengths = lengths.0;
    let roll_lengths = lengths.1;
    let keys_fit = adds_up(key_lengths, n, keys.len());
    let rolls_fit = adds_up(roll_lengths, n, rolls.len());
    (opcodes.len() != bytes)
        | (arguments.len() != bytes)
        | (ram.len() != bytes)
        | (stack.len() != bytes)
        | !keys_fit
        | !rolls_fit
}

// Whether any of n seats has a key position or a roll position past its end, by the lengths of their
// keys and rolls. `any` copies the states at each seat: a turn of one step takes a third more
// instructions.
#[tactic(auto, unfolding(seats::specs::Turn::any_of))]
fn bad_positions(
    n: usize,
    keys: [usize; 8],
    rolls: [usize; 8],
    states: [StateNumbers; 8],
    positions: [usize; 8],
) -> bool
    requires { n ≤ max_seats }
    ensures { result ≡ any_of (bad_position keys rolls (mapped state_of states) positions) n }
{
    let mut any = false;
    for i in 0..n {
        let x = states[i];
        let key_position = x.9;
        any = any | ((keys[i] < key_position) | (rolls[i] < positions[i]));
    }
    any
}

// Whether a call keeps the rules, or the first that it breaks.
#[tactic(auto, unfolding(seats::specs::Turn::turn_fault))]
pub fn check_call(
    n: usize,
    slice: u32,
    opcodes: &[u8],
    arguments: &[u8],
    keys: &[u8],
    ram: &[u8],
    stack: &[u8],
    rolls: &[u16],
    lengths: SeatLengths,
    seats: SeatNumbers,
) -> Result<(), TurnRefusal>
    ensures { result ≡ turn_fault n slice (room_of opcodes.now arguments.now keys.now ram.now stack.now rolls.now lengths seats) }
{
    if (n == 0) | (MAX_SEATS < n) {
        return Err(TurnRefusal::BadSeats);
    }
    if (slice == 0) | (MAX_SLICE < slice) {
        return Err(TurnRefusal::BadSlice);
    }
    if bad_buffers(n, opcodes, arguments, keys, ram, stack, rolls, lengths) {
        return Err(TurnRefusal::BadBuffers);
    }
    let key_lengths = lengths.0;
    let roll_lengths = lengths.1;
    let states = seats.0;
    let roll_positions = seats.1;
    if bad_positions(n, key_lengths, roll_lengths, states, roll_positions) {
        return Err(TurnRefusal::BadPositions);
    }
    Ok(())
}
