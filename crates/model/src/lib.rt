// The machine's types and limits. `specs/` says what a step and a run do to them; nothing here runs.
#![tactic(auto)]

use alu::Flags;

// The steps that a run may be asked for.
pub const MAX_BUDGET: u32 = 1000000;

// The clock in Hz, and the cycles, that a running time may be asked for.
pub const MAX_CLOCK: u32 = 1000000;

pub const MAX_CYCLES: u32 = 8000000;

// The machine's state: R0 to R3, PC, SP, the output register, the flags, whether it is halted, and
// the position in the keys.
#[derive(Clone, Copy)]
pub struct State {
    pub regs: [u8; 4],
    pub pc: u8,
    pub sp: u8,
    pub out: u8,
    pub flags: Flags,
    pub halted: bool,
    pub position: usize,
}

// What a step writes: nothing, a byte to the data or the stack bank at an address, or a word to the
// roll.
#[derive(Clone, Copy)]
pub enum Write {
    Nothing,
    Data(u8, u8),
    Stack(u8, u8),
    Roll(u16),
}

// Why a run stops, in the order in which they are tested.
#[derive(Clone, Copy)]
pub enum Stop {
    Halted,
    Spent,
    Unsettled,
    Full,
}

// Why a run is refused.
#[derive(Clone, Copy)]
pub enum Refusal {
    BadBank,
    BadPosition,
    BadBudget,
}

// What a run reports beside the state: where it stopped, after how many steps and cycles, and how many
// words the roll then has.
#[derive(Clone, Copy)]
pub struct Ran {
    pub stop: Stop,
    pub steps: u32,
    pub cycles: u32,
    pub words: usize,
}

// What a run hands back: its answer, and the state reached. The state stands beside the answer since a
// refusal hands it back too, as it was.
#[derive(Clone, Copy)]
pub struct Report {
    pub answer: Result<Ran, Refusal>,
    pub state: State,
}

// Why there is no running time.
#[derive(Clone, Copy)]
pub enum TimeError {
    BadClock,
    BadCycles,
}
