// The export of busy runs, as C calls it.
#![tactic(auto)]

ghost use Rattle.model.specs.Run.{call};
ghost use Rattle.run_numbers.specs.Runs.{state_of};
ghost use Rattle.busy_runs.specs.Busy.{records};
ghost use Rattle.busy.specs.Exported.{BusyNumbered};

use busy::BusyNumbers;
use run_numbers::StateNumbers;

// A busy run as numbers, or the number of a refusal that leaves everything lent as it was.
#[unsafe(no_mangle)]
pub extern "C" fn cesca_run_busy(
    opcodes: &[u8],
    arguments: &[u8],
    keys: &[u8],
    ram: &mut [u8],
    stack: &mut [u8],
    roll: &mut [u16],
    counters: &mut [u32],
    page: &mut [u8],
    budget: u32,
    start: StateNumbers,
) -> BusyNumbers
    ensures { BusyNumbered (call opcodes.now arguments.now keys.now budget (state_of start) ram.old stack.old roll.old) (records counters.old page.old) result ram.new stack.new roll.new counters.new page.new }
{
    busy::cesca_run_busy(
        opcodes, arguments, keys, ram, stack, roll, counters, page, budget, start,
    )
}
