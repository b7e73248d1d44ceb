// The state with one part changed, and where SP moves; the registers, which a run holds beside it.
#![tactic(auto)]

pub mod registers;

ghost use Rattle.std.specs.Prelude.{◌≡◌};
ghost use Rattle.model.specs.State.{sp_after_push, sp_after_pop, with_registers, with_pc, with_sp, with_out, with_flags, with_halted, with_position};

use alu::Flags;
use model::State;

// SP after a push or a call.
pub fn sp_after_push(sp: u8) -> u8
    ensures { result ≡ sp_after_push sp }
{
    std::num::wrapping_sub_u8(sp, 1)
}

// SP after a pop or a return.
pub fn sp_after_pop(sp: u8) -> u8
    ensures { result ≡ sp_after_pop sp }
{
    std::num::wrapping_add_u8(sp, 1)
}

// The state with its registers changed.
pub fn to_registers(s: State, regs: [u8; 4]) -> State
    ensures { result ≡ with_registers s regs }
{
    State { regs: regs, ..s }
}

// The state with PC changed.
pub fn to_pc(s: State, n: u8) -> State
    ensures { result ≡ with_pc s n }
{
    State { pc: n, ..s }
}

// The state with SP changed.
pub fn to_sp(s: State, n: u8) -> State
    ensures { result ≡ with_sp s n }
{
    State { sp: n, ..s }
}

// The state with the output register changed.
pub fn to_out(s: State, n: u8) -> State
    ensures { result ≡ with_out s n }
{
    State { out: n, ..s }
}

// The state with the flags changed.
pub fn to_flags(s: State, f: Flags) -> State
    ensures { result ≡ with_flags s f }
{
    State { flags: f, ..s }
}

// The state with whether it is halted changed.
pub fn to_halted(s: State, b: bool) -> State
    ensures { result ≡ with_halted s b }
{
    State { halted: b, ..s }
}

// The state with the key position changed.
pub fn to_position(s: State, n: usize) -> State
    ensures { result ≡ with_position s n }
{
    State { position: n, ..s }
}
