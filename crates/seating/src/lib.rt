// A turn: the first seat that can go on runs for a slice, on its own parts of the buffers that all
// seats share.
#![tactic(auto)]

ghost use Rattle.std.specs.Prelude.{◌≡◌, ◌≤◌, ◌<◌, length};
ghost use Rattle.seats.specs.Room.{max_seats};
ghost use Rattle.seats.specs.Turn.{turn_call, max_slice};
ghost use Rattle.seats.specs.internal.Places.{SeatPlaces};
ghost use Rattle.scheduling.specs.Numbers.{room_of};
ghost use Rattle.seating.specs.Reports.{TurnedAs};
ghost use Rattle.seating.specs.internal.SeatRuns.{SeatRan, report_by};

use machine::{Reached, run_steps};
use scheduling::lengths::begin_of;
use scheduling::places::{seat_after, state_at, with_seat};
use scheduling::refusals::check_call;
use scheduling::search::next_seat;
use scheduling::{SeatLengths, SeatNumbers};
use seats::{SeatTurn, TurnRefusal};
use slices::BANK_SIZE;

// What a turn hands back: its answer, and the seats as they are after it.
#[derive(Clone, Copy)]
pub struct TurnReport {
    pub answer: Result<Option<SeatTurn>, TurnRefusal>,
    pub seats: SeatNumbers,
}

// Seat i's slice: its own parts of the buffers are lent to a run, the roll continued where it ends.
fn run_seat(
    opcodes: &[u8],
    arguments: &[u8],
    keys: &[u8],
    ram: &mut [u8],
    stack: &mut [u8],
    rolls: &mut [u16],
    lengths: SeatLengths,
    slice: u32,
    i: usize,
    seats: SeatNumbers,
) -> Reached
    requires seat_places { SeatPlaces (room_of opcodes.now arguments.now keys.now ram.old stack.old rolls.old lengths seats) i }
    requires i_lt_max_seats { (i < max_seats) × (slice ≤ max_slice) }
    ensures { (length seats.0 ≡ max_seats) × SeatRan (room_of opcodes.now arguments.now keys.now ram.old stack.old rolls.old lengths seats) i slice result ram.new stack.new rolls.new }
{
    let bank = BANK_SIZE * i;
    let key_lengths = lengths.0;
    let roll_lengths = lengths.1;
    let states = seats.0;
    let positions = seats.1;
    let first_key = begin_of(key_lengths, i);
    let first_word = begin_of(roll_lengths, i);
    let start = state_at(states, i);
    run_steps(
        &opcodes[bank..bank + BANK_SIZE],
        &arguments[bank..bank + BANK_SIZE],
        &keys[first_key..first_key + key_lengths[i]],
        &mut ram[bank..bank + BANK_SIZE],
        &mut stack[bank..bank + BANK_SIZE],
        &mut rolls[first_word..first_word + roll_lengths[i]],
        slice,
        positions[i],
        start,
    )
}

// The report of a turn in which no seat ran: the seats are as they were.
fn idle(answer: Result<Option<SeatTurn>, TurnRefusal>, seats: SeatNumbers) -> TurnReport
    ensures { result ≡ record { answer = answer; seats = seats } }
{
    TurnReport { answer, seats }
}

// The report of a turn in which seat i ran.
fn seat_report(i: usize, next: usize, reached: Reached, seats: SeatNumbers) -> TurnReport
    requires { i < max_seats }
    ensures { result ≡ report_by i next reached.ran reached.state seats }
{
    let ran = reached.ran;
    TurnReport {
        answer: Ok(Some(SeatTurn {
            seat: i,
            next,
            stop: ran.stop,
            steps: ran.steps,
            cycles: ran.cycles,
        })),
        seats: with_seat(seats, i, reached.state, ran.words),
    }
}

// One turn of n seats, from a given seat on (modulo the seats), for a slice of steps: the seat that
// ran and the seat after it, or that none can go on, or a refusal that leaves everything as it was.
pub fn turn(
    n: usize,
    slice: u32,
    from: usize,
    opcodes: &[u8],
    arguments: &[u8],
    keys: &[u8],
    ram: &mut [u8],
    stack: &mut [u8],
    rolls: &mut [u16],
    lengths: SeatLengths,
    seats: SeatNumbers,
) -> TurnReport
    ensures { TurnedAs (turn_call n slice from) (room_of opcodes.now arguments.now keys.now ram.old stack.old rolls.old lengths seats) seats result ram.new stack.new rolls.new }
{
    if let Err(refusal) = check_call(
        n, slice, opcodes, arguments, keys, ram, stack, rolls, lengths, seats,
    ) {
        return idle(Err(refusal), seats);
    }
    let Some(i) = next_seat(opcodes, lengths, n, from % n, seats) else {
        return idle(Ok(None), seats);
    };
    let next = seat_after(n, i);
    let reached = run_seat(
        opcodes, arguments, keys, ram, stack, rolls, lengths, slice, i, seats,
    );
    seat_report(i, next, reached, seats)
}
