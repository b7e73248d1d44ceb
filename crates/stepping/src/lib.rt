// A step, unless something stops it.
#![tactic(auto)]

ghost use Rattle.std.specs.Prelude.{◌≡◌, ◌+◌, ◌<◌, ◌≤◌, length, set, Some, None};
ghost use Rattle.effects.specs.internal.Effects.{operated};
ghost use Rattle.model.specs.Run.{attempt, attempt_of, steps_by};
ghost use Rattle.model.specs.State.{with_registers};
ghost use Rattle.model.specs.Step.{setting, machine_at};

use effects::Action;
use model::{State, Stop};
use states::registers::write;

// A step, or the stop that prevents it: that stop, if there is one, the cycles, and the roll words and
// the state afterwards, but for its registers.
#[derive(Clone, Copy)]
pub struct StepResult {
    pub verdict: Option<Stop>,
    pub cycles: u32,
    pub words: usize,
    pub state: State,
}

// A step that is made.
fn made(cycles: u32, words: usize, state: State) -> StepResult
    ensures { result ≡ record { verdict = None; cycles = cycles; words = words; state = state } }
{
    StepResult {
        verdict: None,
        cycles: cycles,
        words: words,
        state: state,
    }
}

// A step that is prevented: nothing is done, and no cycle counted.
fn prevented(stop: Stop, words: usize, state: State) -> StepResult
    ensures { result ≡ record { verdict = Some stop; cycles = 0; words = words; state = state } }
{
    StepResult {
        verdict: Some(stop),
        cycles: 0,
        words: words,
        state: state,
    }
}

// Function f of x and y: its result is put into register d, and the state has its flags.
fn operate(s: State, regs: &mut [u8; 4], d: u8, f: u8, x: u8, y: u8) -> State
    ensures { with_registers result regs.new ≡ operated (with_registers s regs.old) d f x y }
{
    let before = s.flags;
    let o = alu::alu(f, x, y, before.c);
    let after = o.flags;
    write(regs, d, o.value);
    states::to_flags(s, after)
}

// A word is put at the roll's next free place, and the place after it is handed back.
fn send(roll: &mut [u16], words: usize, w: u16) -> usize
    requires { words < length roll.old }
    ensures { (roll.new ≡ set roll.old words w) × (result ≡ words + 1) }
{
    roll[words] = w;
    words + 1
}

// One step, or the stop that prevents it, at a machine with budget left. The registers are lent
// beside the state, whose own are neither looked at nor set.
pub fn step(
    opcodes: &[u8],
    arguments: &[u8],
    keys: &[u8],
    ram: &mut [u8],
    stack: &mut [u8],
    roll: &mut [u16],
    words: usize,
    s: State,
    regs: &mut [u8; 4],
) -> StepResult
    ensures { (attempt result.verdict result.cycles (machine_at (with_registers result.state regs.new) ram.new stack.new roll.new result.words (steps_by result.verdict) result.cycles) ≡ attempt_of (setting opcodes.now arguments.now keys.now) (machine_at (with_registers s regs.old) ram.old stack.old roll.old words 0 0)) × (result.cycles ≤ 255) }
{
    if s.halted {
        return prevented(Stop::Halted, words, s);
    }
    let pc = s.pc;
    let opcode = slices::load(opcodes, pc);
    let argument = slices::load(arguments, pc);
    let e = execution::execute(opcode, argument, s, regs, keys, ram, stack);
    let n = u32::from(e.cycles);
    let action = e.action;
    let next = e.state;
    match action {
        Action::Nothing => made(n, words, next),
        Action::TestV => {
            let flags = s.flags;
            let v = flags.v;
            if alu::is_settled(v) {
                made(n, words, next)
            } else {
                prevented(Stop::Unsettled, words, s)
            }
        }
        Action::Register(d, v) => {
            write(regs, d, v);
            made(n, words, next)
        }
        Action::Data(a, x) => {
            slices::store(ram, a, x);
            made(n, words, next)
        }
        Action::Stack(a, x) => {
            slices::store(stack, a, x);
            made(n, words, next)
        }
        Action::Swap(d, old, a, v) => {
            write(regs, d, old);
            slices::store(stack, a, v);
            made(n, words, next)
        }
        Action::Roll(w) => {
            if words < roll.len() {
                let more = send(roll, words, w);
                made(n, more, next)
            } else {
                prevented(Stop::Full, words, s)
            }
        }
        Action::Compute(d, f, x, y) => {
            let after = operate(next, regs, d, f, x, y);
            made(n, words, after)
        }
    }
}
