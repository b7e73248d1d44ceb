// The machine's exports, in an archive apart from the other exports: decoding and the ALU then have
// one caller, so that a run's loop holds them and calls nothing.
#![tactic(auto)]

ghost use Rattle.model.specs.Run.{call};
ghost use Rattle.run_numbers.specs.Runs.{state_of, RunNumbered, TimeNumbered};

use model::State;
use run_numbers::{RunNumbers, StateNumbers, TimeNumbers};

// A run's report, or the number of a refusal that leaves everything lent as it was.
pub fn cesca_run(
    opcodes: &[u8],
    arguments: &[u8],
    keys: &[u8],
    ram: &mut [u8],
    stack: &mut [u8],
    roll: &mut [u16],
    budget: u32,
    start: StateNumbers,
) -> RunNumbers
    ensures { RunNumbered (call opcodes.now arguments.now keys.now budget (state_of start) ram.old stack.old roll.old) result ram.new stack.new roll.new }
{
    let s = State::from(start);
    RunNumbers::from(machine::run(opcodes, arguments, keys, ram, stack, roll, budget, s))
}

// The tenths of a second that so many cycles take at a clock in Hz, or the number of a refusal.
pub fn cesca_running_time(cycles: u32, clock: u32) -> TimeNumbers
    ensures { TimeNumbered cycles clock result }
{
    TimeNumbers::from(timing::running_time(cycles, clock))
}
