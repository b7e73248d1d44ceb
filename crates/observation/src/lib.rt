// A run that is observed: beside what a run does, each executed address is counted, and written to a
// log as far as there is room.
#![tactic(auto)]

ghost use Rattle.std.specs.Prelude.{◌≡◌, ◌+◌, ◌<◌, ◌≤◌, get_or, set, replicate, Ok};
ghost use Rattle.slices.specs.Sizes.{bank_size};
ghost use Rattle.pages.specs.Page.{page};
ghost use Rattle.model.specs.Run.{outcome, max_budget};
ghost use Rattle.model.specs.Step.{setting, machine_at};
ghost use Rattle.observation.specs.internal.Observed.{Noted, Observed};

use machine::{Reached, ended, last_stop};
use model::{State, Stop};
use pages::put;
use states::to_registers;
use stepping::step;

// An address is counted once more; it is a byte.
fn count(counters: &mut [u32], a: u8)
    requires { get_or counters.old a 0 < 4294967295 }
    ensures { (counters.new ≡ set counters.old a (get_or counters.old a 0 + 1)) × (a < bank_size) }
{
    let i = usize::from(a);
    if i < counters.len() {
        counters[i] = counters[i] + 1;
    }
}

// The address of a step that was made is counted, and put into the log where there is room; the place
// after it there.
fn note(counters: &mut [u32], log: &mut [u8], noted: usize, a: u8) -> usize
    requires { get_or counters.old a 0 < 4294967295 }
    ensures { Noted a counters.old (page log.old noted) counters.new (page log.new result) }
{
    count(counters, a);
    put(log, noted, a)
}

// The steps of a budget up to the first stop, as a run makes them, each address noted. The loop stands
// beside the run's own, so that a run that nobody observes pays nothing. The log's place is counted
// apart from the steps, so that an empty log costs nothing. A `while` as there, for the same speed.
pub fn observe(
    opcodes: &[u8],
    arguments: &[u8],
    keys: &[u8],
    ram: &mut [u8],
    stack: &mut [u8],
    roll: &mut [u16],
    counters: &mut [u32],
    log: &mut [u8],
    budget: u32,
    start: State,
) -> Reached
    requires { (budget ≤ max_budget) × (counters.old ≡ replicate bank_size 0) }
    ensures { Observed (setting opcodes.now arguments.now keys.now) budget (machine_at start ram.old stack.old roll.old 0 0 0) log.old (outcome (Ok result.ran) result.state ram.new stack.new roll.new) counters.new log.new }
{
    if start.halted {
        return ended(Stop::Halted, 0, 0, 0, start);
    }
    let mut s = start;
    let mut regs = start.regs;
    let mut written: usize = 0;
    let mut noted: usize = 0;
    let mut steps: u32 = 0;
    let mut cycles: u32 = 0;
    while steps < budget {
        let pc = s.pc;
        let lent = &mut regs;
        let result = step(opcodes, arguments, keys, ram, stack, roll, written, s, lent);
        s = result.state;
        written = result.words;
        let verdict = result.verdict;
        match verdict {
            None => {
                noted = note(counters, log, noted, pc);
                steps = steps + 1;
                cycles = cycles + result.cycles;
                if s.halted {
                    let reached = to_registers(s, regs);
                    return ended(Stop::Halted, steps, cycles, written, reached);
                }
            }
            Some(stop) => {
                let reached = to_registers(s, regs);
                return ended(stop, steps, cycles, written, reached);
            }
        }
    }
    let reached = to_registers(s, regs);
    ended(last_stop(s), steps, cycles, written, reached)
}
