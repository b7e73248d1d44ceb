// The exports of a run and of its time, as C calls them.
#![tactic(auto)]

ghost use Rattle.model.specs.Run.{call};
ghost use Rattle.run_numbers.specs.Runs.{state_of, RunNumbered, TimeNumbered};

use run_numbers::{RunNumbers, StateNumbers, TimeNumbers};

// A run's report, or the number of a refusal that leaves everything lent as it was.
#[unsafe(no_mangle)]
pub extern "C" fn cesca_run(
    opcodes: &[u8],
    arguments: &[u8],
    keys: &[u8],
    ram: &mut [u8],
    stack: &mut [u8],
    roll: &mut [u16],
    budget: u32,
    start: StateNumbers,
) -> RunNumbers
    ensures { RunNumbered (call opcodes.now arguments.now keys.now budget (state_of start) ram.old stack.old roll.old) result ram.new stack.new roll.new }
{
    runs::cesca_run(opcodes, arguments, keys, ram, stack, roll, budget, start)
}

// The tenths of a second that so many cycles take at a clock in Hz, or the number of a refusal.
#[unsafe(no_mangle)]
pub extern "C" fn cesca_running_time(cycles: u32, clock: u32) -> TimeNumbers
    ensures { TimeNumbered cycles clock result }
{
    runs::cesca_running_time(cycles, clock)
}
