// The export of a turn, as C calls it.
#![tactic(auto)]

ghost use Rattle.seats.specs.Turn.{turn_call};
ghost use Rattle.scheduling.specs.Numbers.{room_of};
ghost use Rattle.turns.specs.Exported.{TurnNumbered};

use scheduling::{SeatLengths, SeatNumbers};
use turns::TurnNumbers;

// A turn's report, or the number of a refusal that leaves everything lent as it was.
#[unsafe(no_mangle)]
pub extern "C" fn cesca_turn(
    n: usize,
    slice: u32,
    from: usize,
    opcodes: &[u8],
    arguments: &[u8],
    keys: &[u8],
    ram: &mut [u8],
    stack: &mut [u8],
    rolls: &mut [u16],
    lengths: SeatLengths,
    seats: SeatNumbers,
) -> TurnNumbers
    ensures { TurnNumbered (turn_call n slice from) (room_of opcodes.now arguments.now keys.now ram.old stack.old rolls.old lengths seats) seats result ram.new stack.new rolls.new }
{
    turns::cesca_turn(
        n, slice, from, opcodes, arguments, keys, ram, stack, rolls, lengths, seats,
    )
}
