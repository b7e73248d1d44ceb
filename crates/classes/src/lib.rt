// How each instruction goes on, what it does to V, and whether it writes to the roll.
#![tactic(auto)]

ghost use Rattle.std.specs.Prelude.{◌≡◌};
ghost use Rattle.isa.specs.Facts.{effect_of, facts_of};

use isa::{Class, Facts, Instr, OverflowEffect};

// What ALU function f does to V.
fn effect(f: u8) -> OverflowEffect
    ensures { result ≡ effect_of f }
{
    if alu::settles(f) {
        OverflowEffect::Settles
    } else {
        OverflowEffect::Unsettles
    }
}

// The instruction's class, and whether it writes to the roll.
pub fn classify(instr: Instr) -> Facts
    ensures { result ≡ facts_of instr }
{
    match instr {
        Instr::Alu(_, _, f, _) | Instr::AluNone(_, f, _) => Facts(Class::Next(effect(f)), false),
        Instr::AddImm(_, _, _) => Facts(Class::Next(effect(0b0001)), false),
        Instr::CmpImm(_, _) => Facts(Class::Next(effect(0b0010)), false),
        Instr::MaskImm(_, _) | Instr::MaskIn(_) => Facts(Class::Next(effect(0b0101)), false),
        Instr::Push(a) => Facts(Class::Push(a), false),
        Instr::Pop(_) => Facts(Class::Pop, false),
        Instr::Swap(_, a) => Facts(Class::Swap(a), false),
        Instr::Jmp(i) => Facts(Class::Jump(i), false),
        Instr::JmpReg(_) => Facts(Class::JumpReg, false),
        Instr::Call(i) => Facts(Class::Call(i), false),
        Instr::Ret => Facts(Class::Return, false),
        Instr::Jv(i) | Instr::Jnv(i) | Instr::Jlt(i) | Instr::Jle(i) => Facts(
            Class::Branch(i, true),
            false,
        ),
        Instr::Jz(i)
        | Instr::Jnz(i)
        | Instr::Jc(i)
        | Instr::Jnc(i)
        | Instr::Jlz(i)
        | Instr::Jp(i)
        | Instr::Jgz(i)
        | Instr::Jleu(i) => Facts(Class::Branch(i, false), false),
        Instr::LcdCmd(_) | Instr::LcdImm(_) | Instr::LcdReg(_) | Instr::LcdMem(_) => Facts(
            Class::Next(OverflowEffect::Keeps),
            true,
        ),
        Instr::Hlt => Facts(Class::Halt, false),
        Instr::MovImm(_, _)
        | Instr::MovIn(_)
        | Instr::Ack
        | Instr::StoreAddr(_, _)
        | Instr::StoreReg(_, _)
        | Instr::LoadAddr(_, _)
        | Instr::LoadReg(_, _)
        | Instr::OutReg(_)
        | Instr::OutMem(_)
        | Instr::Nop => Facts(Class::Next(OverflowEffect::Keeps), false),
    }
}
