// What a run is called with: the start state, and the rules that a call may break.
#![tactic(auto)]

ghost use Rattle.std.specs.Prelude.{◌≡◌};
ghost use Rattle.model.specs.Run.{call, refusal_of};
ghost use Rattle.model.specs.State.{start_state};

use alu::{Flags, Overflow};
use model::{MAX_BUDGET, Refusal, State};
use slices::BANK_SIZE;

// 01's start state.
pub fn start_state() -> State
    ensures { result ≡ start_state }
{
    State {
        regs: [0u8; 4],
        pc: 0,
        sp: 255,
        out: 0,
        flags: Flags {
            z: false,
            c: false,
            s: false,
            v: Overflow::Unsettled,
        },
        halted: false,
        position: 0,
    }
}

// Whether a run may begin, or the first rule that its call breaks; keys and roll may have any length.
pub fn refusal(
    opcodes: &[u8],
    arguments: &[u8],
    keys: &[u8],
    ram: &[u8],
    stack: &[u8],
    roll: &[u16],
    budget: u32,
    start: State,
) -> Result<(), Refusal>
    ensures { result ≡ refusal_of (call opcodes.now arguments.now keys.now budget start ram.now stack.now roll.now) }
{
    let n = BANK_SIZE;
    if (opcodes.len() != n) | (arguments.len() != n) | (ram.len() != n) | (stack.len() != n) {
        return Err(Refusal::BadBank);
    }
    if keys.len() < start.position {
        return Err(Refusal::BadPosition);
    }
    if MAX_BUDGET < budget {
        return Err(Refusal::BadBudget);
    }
    Ok(())
}
