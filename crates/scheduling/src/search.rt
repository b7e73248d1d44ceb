// The search for the seat that runs.
ghost use Rattle.std.specs.Prelude.{◌≡◌, ◌≤◌, ◌<◌, length};
ghost use Rattle.slices.specs.Lists.{mapped};
ghost use Rattle.run_numbers.specs.Runs.{state_of};
ghost use Rattle.seats.specs.Room.{max_seats, bank_at};
ghost use Rattle.seats.specs.Turn.{first_from};
ghost use Rattle.scheduling.specs.internal.Search.{is_overflow_jump, is_transfer, goes_at, goes_by};

use super::places::{seat_after, state_at};
use super::{SeatLengths, SeatNumbers};
use alu::is_settled;
use model::State;
use slices::{BANK_SIZE, load};

// Whether an opcode is that of jv, jnv, jlt or jle.
fn is_overflow_jump(opcode: u8) -> bool
    ensures { result ≡ is_overflow_jump opcode }
{
    let form = opcode >> 2;
    (form == 0b110000) | (form == 0b110001) | (form == 0b110110) | (form == 0b110111)
}

// Whether it is that of an LCD transfer.
fn is_transfer(opcode: u8) -> bool
    ensures { result ≡ is_transfer opcode }
{
    opcode >> 4 == 0b1110
}

// Whether no stop other than spent prevents the step of an opcode, by its bits and not by `decode`:
// with a second caller that would no longer be inlined into the run's loop.
fn can_go(opcode: u8, s: State, full: bool) -> bool
    ensures { result ≡ goes_at opcode s full }
{
    let halted = s.halted;
    let f = s.flags;
    let v = f.v;
    let unsettled = is_overflow_jump(opcode) & !is_settled(v);
    let no_room = is_transfer(opcode) & full;
    !(halted | unsettled | no_room)
}

// The first of n seats, from a seat on and round them, that can go on, if one can. `find` over the
// seats copies the states at each: a turn behind seven halted seats takes a seventh more instructions.
pub fn next_seat(
    opcodes: &[u8],
    lengths: SeatLengths,
    n: usize,
    from: usize,
    seats: SeatNumbers,
) -> Option<usize>
    requires { (from < n) × (n ≤ max_seats) × (length opcodes.now ≡ bank_at n) }
    ensures { result ≡ first_from (goes_by opcodes.now lengths.1 (mapped state_of seats.0) seats.1) n from n }
{
    let roll_lengths = lengths.1;
    let states = seats.0;
    let roll_positions = seats.1;
    let mut i = from;
    for asked in 0..n {
        let bank = BANK_SIZE * i;
        let s = state_at(states, i);
        let opcode = load(&opcodes[bank..bank + BANK_SIZE], s.pc);
        let full = roll_lengths[i] <= roll_positions[i];
        if can_go(opcode, s, full) {
            return Some(i);
        }
        i = seat_after(n, i);
    }
    None
}
