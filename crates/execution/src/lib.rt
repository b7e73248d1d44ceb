// An instruction's effect, as one function with an arm for each form.
#![tactic(auto)]

ghost use Rattle.std.specs.Prelude.{◌≡◌, slice_index};
ghost use Rattle.model.specs.State.{with_registers};
ghost use Rattle.model.specs.Step.{fetched};
ghost use Rattle.isa.specs.Decode.{decode_of};
ghost use Rattle.effects.specs.internal.Effects.{behavior_by, behavior_of};

use branches::{branch_effect, branch_outcome};
use effects::moves::{acknowledged, moved, sent, shown, stored};
use effects::results::{comparing, computed, computing, flagged};
use effects::stack::{called, popped, pushed, returned, swapped};
use effects::{Effect, state_only};
use isa::Instr;
use model::State;
use slices::load;

// The effect of an instruction at the state before its fetch, the registers lent beside it.
fn execute_form(
    instr: Instr,
    before: State,
    regs: &[u8; 4],
    keys: &[u8],
    ram: &[u8],
    stack: &[u8],
) -> Effect
    ensures { behavior_by regs.now result ≡ behavior_of instr (fetched (with_registers before regs.now)) (slice_index stack.now before.sp) ram.now keys.now }
{
    let s = states::to_pc(before, std::num::wrapping_add_u8(before.pc, 1));
    match instr {
        Instr::Alu(d, a, f, b) => computing(s, d, f, load(regs, a), load(regs, b), 4),
        Instr::AddImm(d, a, i) => computed(s, d, alu::sum(load(regs, a), i, false), 4),
        Instr::AluNone(a, f, b) => comparing(s, f, load(regs, a), load(regs, b)),
        Instr::CmpImm(a, i) => flagged(s, alu::difference(load(regs, a), i, false), 3),
        Instr::MaskImm(a, i) => flagged(s, alu::plain(load(regs, a) & i), 3),
        Instr::MaskIn(i) => flagged(s, alu::plain(slices::byte_at(keys, s.position) & i), 5),
        Instr::MovImm(d, i) => moved(s, d, i, 3),
        Instr::MovIn(d) => moved(s, d, slices::byte_at(keys, s.position), 4),
        Instr::Ack => acknowledged(s, keys),
        Instr::StoreAddr(a, i) => stored(s, i, load(regs, a), 4),
        Instr::StoreReg(a, b) => stored(s, load(regs, b), load(regs, a), 5),
        Instr::Push(a) => pushed(s, load(regs, a), 5),
        Instr::LoadAddr(d, i) => moved(s, d, load(ram, i), 4),
        Instr::LoadReg(d, a) => moved(s, d, load(ram, load(regs, a)), 4),
        Instr::Pop(d) => popped(s, d, load(stack, s.sp)),
        Instr::Swap(d, a) => swapped(s, d, load(stack, s.sp), load(regs, a)),
        Instr::Jmp(i) => state_only(states::to_pc(s, i), 3),
        Instr::JmpReg(a) => state_only(states::to_pc(s, load(regs, a)), 3),
        Instr::Call(i) => called(s, i),
        Instr::Ret => returned(s, load(stack, s.sp)),
        Instr::LcdCmd(i) => sent(s, 256 + u16::from(i), 3),
        Instr::LcdImm(i) => sent(s, u16::from(i), 3),
        Instr::LcdReg(a) => sent(s, u16::from(load(regs, a)), 3),
        Instr::LcdMem(i) => sent(s, u16::from(load(ram, i)), 4),
        Instr::OutReg(a) => shown(s, load(regs, a), 3),
        Instr::OutMem(i) => shown(s, load(ram, i), 4),
        Instr::Hlt => state_only(states::to_halted(s, true), 2),
        Instr::Nop => state_only(s, 8),
        _ => branch_effect(s, branch_outcome(instr, s)),
    }
}

// The effect of the instruction that two bytes make, at the state before its fetch, the registers
// lent beside it.
pub fn execute(
    opcode: u8,
    argument: u8,
    s: State,
    regs: &[u8; 4],
    keys: &[u8],
    ram: &[u8],
    stack: &[u8],
) -> Effect
    ensures { behavior_by regs.now result ≡ behavior_of (decode_of opcode argument) (fetched (with_registers s regs.now)) (slice_index stack.now s.sp) ram.now keys.now }
{
    let instr = decoding::decode(opcode, argument);
    execute_form(instr, s, regs, keys, ram, stack)
}
