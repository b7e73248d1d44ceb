// The export for busy runs, in an archive apart from the other exports: the step has one caller, as in
// `runs`, and is inlined into the observed loop.
#![tactic(auto)]

ghost use Rattle.std.specs.Prelude.{◌≡◌, ◌≤◌, length, Err};
ghost use Rattle.slices.specs.Sizes.{bank_size};
ghost use Rattle.model.specs.Run.{call, outcome, max_budget};
ghost use Rattle.run_numbers.specs.Runs.{state_of};
ghost use Rattle.busy_runs.specs.Busy.{records, busy_outcome, page_size, busy_refusal_of, BusyRan, BusyPromise};
ghost use Rattle.busy.specs.Exported.{BusyNumbered};

use busy_runs::PAGE_SIZE;
use model::{Refusal, Report, State};
use ranking::ADDRESSES;
use run_numbers::{RunNumbers, StateNumbers};

// A busy run's report, and the lines of its page.
#[derive(Clone, Copy)]
pub struct BusyReport {
    pub run: Report,
    pub lines: usize,
}

// A busy run as numbers: the run's, and the lines of its page.
#[repr(C)]
#[derive(Clone, Copy)]
pub struct BusyNumbers(pub RunNumbers, pub usize);

// Whether a busy run may begin, or the first rule that its call breaks.
fn refusal(
    opcodes: &[u8],
    arguments: &[u8],
    keys: &[u8],
    ram: &[u8],
    stack: &[u8],
    roll: &[u16],
    counters: &[u32],
    page: &[u8],
    budget: u32,
    start: State,
) -> Result<(), Refusal>
    ensures { result ≡ busy_refusal_of (call opcodes.now arguments.now keys.now budget start ram.now stack.now roll.now) (records counters.now page.now) }
{
    if (counters.len() != ADDRESSES) | (page.len() < PAGE_SIZE) {
        return Err(Refusal::BadBank);
    }
    calls::refusal(opcodes, arguments, keys, ram, stack, roll, budget, start)
}

// A run that no rule refuses, with its counters and its page.
fn run_recorded(
    opcodes: &[u8],
    arguments: &[u8],
    keys: &[u8],
    ram: &mut [u8],
    stack: &mut [u8],
    roll: &mut [u16],
    counters: &mut [u32],
    page: &mut [u8],
    budget: u32,
    start: State,
) -> BusyReport
    requires { (budget ≤ max_budget) × (length counters.old ≡ bank_size) × (page_size ≤ length page.old) }
    ensures { BusyRan (call opcodes.now arguments.now keys.now budget start ram.old stack.old roll.old) (records counters.old page.old) (busy_outcome (outcome result.run.answer result.run.state ram.new stack.new roll.new) result.lines (records counters.new page.new)) }
{
    counters.fill(0);
    let mut log = [0u8; 0];
    let reached = observation::observe(
        opcodes, arguments, keys, ram, stack, roll, counters, &mut log, budget, start,
    );
    let lines = paging::write_page(opcodes, arguments, counters, page);
    BusyReport {
        run: Report::from(reached),
        lines,
    }
}

// A refusal, with the state as it was and no line.
fn refused(refusal: Refusal, s: State) -> BusyReport
    ensures { result ≡ record { run = record { answer = Err refusal; state = s }; lines = 0 } }
{
    BusyReport {
        run: Report {
            answer: Err(refusal),
            state: s,
        },
        lines: 0,
    }
}

// A run with its counters and its page, or a refusal that leaves everything lent as it was.
fn run_busy(
    opcodes: &[u8],
    arguments: &[u8],
    keys: &[u8],
    ram: &mut [u8],
    stack: &mut [u8],
    roll: &mut [u16],
    counters: &mut [u32],
    page: &mut [u8],
    budget: u32,
    start: State,
) -> BusyReport
    ensures { BusyPromise (call opcodes.now arguments.now keys.now budget start ram.old stack.old roll.old) (records counters.old page.old) (busy_outcome (outcome result.run.answer result.run.state ram.new stack.new roll.new) result.lines (records counters.new page.new)) }
{
    let check = refusal(
        opcodes, arguments, keys, ram, stack, roll, counters, page, budget, start,
    );
    match check {
        Err(x) => refused(x, start),
        Ok(()) => run_recorded(
            opcodes, arguments, keys, ram, stack, roll, counters, page, budget, start,
        ),
    }
}

// A busy run as numbers, or the number of a refusal that leaves everything lent as it was.
pub fn cesca_run_busy(
    opcodes: &[u8],
    arguments: &[u8],
    keys: &[u8],
    ram: &mut [u8],
    stack: &mut [u8],
    roll: &mut [u16],
    counters: &mut [u32],
    page: &mut [u8],
    budget: u32,
    start: StateNumbers,
) -> BusyNumbers
    ensures { BusyNumbered (call opcodes.now arguments.now keys.now budget (state_of start) ram.old stack.old roll.old) (records counters.old page.old) result ram.new stack.new roll.new counters.new page.new }
{
    let s = State::from(start);
    let report = run_busy(
        opcodes, arguments, keys, ram, stack, roll, counters, page, budget, s,
    );
    BusyNumbers(RunNumbers::from(report.run), report.lines)
}
