// The three demands, whole, of the functions that are exported and of the step that runs: each
// function here only calls one of them and promises the demand's sentence, so a contract that is
// weakened below fails here.
#![tactic(auto)]

ghost use Rattle.examples.specs.Listings.{Answered};
ghost use Rattle.examples.specs.Marked.{Marked};
ghost use Rattle.examples.specs.MovListings.{AnsweredByBoth};
ghost use Rattle.model.specs.Run.{call, steps_by};
ghost use Rattle.model.specs.State.{with_registers};
ghost use Rattle.model.specs.Step.{setting, machine_at};
ghost use Rattle.rules.specs.Sheet.{listing};
ghost use Rattle.run_numbers.specs.Runs.{state_of};
ghost use Rattle.demands.specs.First.{FirstOfListing, FirstOfRun, FirstOfTime, FirstOfEncode, FirstOfPut};
ghost use Rattle.demands.specs.Second.{SecondOfStep, SecondOfRun, SecondOfAlu, SecondOfFacts, InstructionReturns, BytesReturn};
ghost use Rattle.demands.specs.Third.{ThirdDemand};

use model::State;
use numbers::{ComputedNumbers, Encoding, FactNumbers, Fields};
use run_numbers::{RunNumbers, StateNumbers, TimeNumbers};
use stepping::StepResult;

// Admission's answer: the first demand of a listing, and the third where it is 0.
pub fn admit(opcodes: &[u8], arguments: &[u8], sheet: &[u8], list: &[u8]) -> u32
    ensures first { FirstOfListing (listing opcodes.now arguments.now sheet.now list.now) result }
    ensures third { ThirdDemand (listing opcodes.now arguments.now sheet.now list.now) result }
{
    admission::cesca_admit(opcodes, arguments, sheet, list)
}

// A run: the first demand of its call, and the second of what it reports and leaves.
pub fn run(
    opcodes: &[u8],
    arguments: &[u8],
    keys: &[u8],
    ram: &mut [u8],
    stack: &mut [u8],
    roll: &mut [u16],
    budget: u32,
    start: StateNumbers,
) -> RunNumbers
    ensures first { FirstOfRun (call opcodes.now arguments.now keys.now budget (state_of start) ram.old stack.old roll.old) result ram.new stack.new roll.new }
    ensures second { SecondOfRun (call opcodes.now arguments.now keys.now budget (state_of start) ram.old stack.old roll.old) result ram.new stack.new roll.new }
{
    runs::cesca_run(opcodes, arguments, keys, ram, stack, roll, budget, start)
}

// A step, or the stop that prevents it, of a state with its registers beside it: the second demand.
pub fn step(
    opcodes: &[u8],
    arguments: &[u8],
    keys: &[u8],
    ram: &mut [u8],
    stack: &mut [u8],
    roll: &mut [u16],
    words: usize,
    s: State,
    regs: &mut [u8; 4],
) -> StepResult
    ensures { SecondOfStep (setting opcodes.now arguments.now keys.now) (machine_at (with_registers s regs.old) ram.old stack.old roll.old words 0 0) result.verdict result.cycles (machine_at (with_registers result.state regs.new) ram.new stack.new roll.new result.words (steps_by result.verdict) result.cycles) }
{
    stepping::step(opcodes, arguments, keys, ram, stack, roll, words, s, regs)
}

// A running time: the first demand of its call.
pub fn running_time(cycles: u32, clock: u32) -> TimeNumbers
    ensures { FirstOfTime cycles clock result }
{
    runs::cesca_running_time(cycles, clock)
}

// The two bytes of an instruction: the first demand of its call.
pub fn encode(fields: Fields) -> Encoding
    ensures { FirstOfEncode fields result }
{
    boundary::cesca_encode(fields)
}

// An instruction put into the banks: the first demand of its call.
pub fn put(fields: Fields, opcodes: &mut [u8], arguments: &mut [u8], at: u8) -> u8
    ensures { FirstOfPut fields opcodes.old arguments.old at result opcodes.new arguments.new }
{
    boundary::cesca_put(fields, opcodes, arguments, at)
}

// An instruction encoded, and its bytes decoded: the second demand.
pub fn instruction_returned(fields: Fields) -> Fields
    ensures { InstructionReturns fields result }
{
    let bytes = boundary::cesca_encode(fields);
    boundary::cesca_decode(bytes.1, bytes.2)
}

// Two bytes decoded, and the instruction encoded: the second demand.
pub fn bytes_returned(opcode: u8, argument: u8) -> Encoding
    ensures { BytesReturn opcode argument result }
{
    boundary::cesca_encode(boundary::cesca_decode(opcode, argument))
}

// A function of the ALU: the second demand.
pub fn alu(f: u8, x: u8, y: u8, c: bool) -> ComputedNumbers
    ensures { SecondOfAlu f x y c result }
{
    boundary::cesca_alu(f, x, y, c)
}

// An instruction's cycles, class, effect on V and use of the roll: the second demand.
pub fn facts(fields: Fields) -> FactNumbers
    ensures { SecondOfFacts fields result }
{
    boundary::cesca_facts(fields)
}

// The marked rows M1 to M10, b being the byte that M8 pushes, the listings that 01 names, and those
// around function 0000: the definitions that the demands rest on give the papers' answers.
pub fn examples(b: u8)
    ensures marked { Marked b }
    ensures answered { Answered }
    ensures compared { AnsweredByBoth }
{}
