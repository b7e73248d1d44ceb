// The export for turns, in an archive apart from the other exports: decoding and the ALU then have one
// caller, and are inlined into the run's loop.
#![tactic(auto)]

ghost use Rattle.std.specs.Prelude.{◌≡◌};
ghost use Rattle.seats.specs.Turn.{turn_call, refusal_number};
ghost use Rattle.scheduling.specs.Numbers.{room_of};
ghost use Rattle.scheduling.specs.internal.Places.{EightNumbers};
ghost use Rattle.turns.specs.Exported.{turn_numbers, TurnNumbered};

use run_numbers::{StateNumbers, stop_number};
use scheduling::places::seats_of;
use scheduling::{SeatLengths, SeatNumbers};
use seats::{SeatTurn, TurnRefusal};

// A turn's report: number, whether a seat ran, its stop, steps and cycles, that seat, the seat after
// it, and the seats.
#[repr(C)]
#[derive(Clone, Copy)]
pub struct TurnNumbers(
    pub u8,
    pub bool,
    pub u8,
    pub u32,
    pub u32,
    pub usize,
    pub usize,
    pub SeatNumbers,
);

// 02's number of a refused turn. A `From` would have to stand in `seats`, where no function stands.
fn refusal_number(refusal: TurnRefusal) -> u8
    ensures { result ≡ refusal_number refusal }
{
    match refusal {
        TurnRefusal::BadSeats => 28,
        TurnRefusal::BadSlice => 29,
        TurnRefusal::BadBuffers => 17,
        TurnRefusal::BadPositions => 18,
    }
}

// The numbers of a turn's report. The two arrays come by themselves, since only so is their length
// known; a `From` of a tuple of the three would be no plainer.
fn turn_numbers(
    answer: Result<Option<SeatTurn>, TurnRefusal>,
    states: [StateNumbers; 8],
    positions: [usize; 8],
) -> TurnNumbers
    ensures { (result ≡ turn_numbers answer (states, positions)) × EightNumbers states positions }
{
    let seats = seats_of(states, positions);
    match answer {
        Err(refusal) => TurnNumbers(refusal_number(refusal), false, 0, 0, 0, 0, 0, seats),
        Ok(None) => TurnNumbers(0, false, 0, 0, 0, 0, 0, seats),
        Ok(Some(turn)) => TurnNumbers(
            0,
            true,
            stop_number(turn.stop),
            turn.steps,
            turn.cycles,
            turn.seat,
            turn.next,
            seats,
        ),
    }
}

// A turn's report, or the number of a refusal that leaves everything lent as it was.
pub fn cesca_turn(
    n: usize,
    slice: u32,
    from: usize,
    opcodes: &[u8],
    arguments: &[u8],
    keys: &[u8],
    ram: &mut [u8],
    stack: &mut [u8],
    rolls: &mut [u16],
    lengths: SeatLengths,
    seats: SeatNumbers,
) -> TurnNumbers
    ensures { TurnNumbered (turn_call n slice from) (room_of opcodes.now arguments.now keys.now ram.old stack.old rolls.old lengths seats) seats result ram.new stack.new rolls.new }
{
    let report = seating::turn(
        n, slice, from, opcodes, arguments, keys, ram, stack, rolls, lengths, seats,
    );
    let answer = report.answer;
    let after = report.seats;
    let states = after.0;
    let positions = after.1;
    turn_numbers(answer, states, positions)
}
