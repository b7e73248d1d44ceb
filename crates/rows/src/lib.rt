// An instruction's row of 003's table, its fields at the row's letters.
#![tactic(auto)]

ghost use Rattle.std.specs.Prelude.{◌≡◌};
ghost use Rattle.isa.specs.Table.{row_of, cycles_of};

use isa::{Argument, Instr, Opcode, Row};

// The row of 003's instruction table, with the instruction's fields at its letters.
pub fn layout(instr: Instr) -> Row
    ensures { result ≡ row_of instr }
{
    match instr {
        Instr::Alu(d, a, f, b) => Row(Opcode::DDAA(0b0000, d, a), Argument::FFFFXXBB(f, b), 4),
        Instr::AddImm(d, a, i) => Row(Opcode::DDAA(0b0001, d, a), Argument::IIIIIIII(i), 4),
        Instr::AluNone(a, f, b) => Row(Opcode::OOAA(0b001000, a), Argument::FFFFXXBB(f, b), 3),
        Instr::CmpImm(a, i) => Row(Opcode::OOAA(0b001001, a), Argument::IIIIIIII(i), 3),
        Instr::MaskImm(a, i) => Row(Opcode::OOAA(0b001010, a), Argument::IIIIIIII(i), 3),
        Instr::MaskIn(i) => Row(Opcode::OOXX(0b001011), Argument::IIIIIIII(i), 5),
        Instr::MovImm(d, i) => Row(Opcode::DDXX(0b0011, d), Argument::IIIIIIII(i), 3),
        Instr::MovIn(d) => Row(Opcode::DDXX(0b0100, d), Argument::XXXXXXXX, 4),
        Instr::Ack => Row(Opcode::OOXX(0b010100), Argument::XXXXXXXX, 3),
        Instr::StoreAddr(a, i) => Row(Opcode::OOAA(0b010101, a), Argument::IIIIIIII(i), 4),
        Instr::StoreReg(a, b) => Row(Opcode::OOAA(0b010110, a), Argument::XXXXXXBB(b), 5),
        Instr::Push(a) => Row(Opcode::OOAA(0b010111, a), Argument::XXXXXXXX, 5),
        Instr::LoadAddr(d, i) => Row(Opcode::DDXX(0b0110, d), Argument::IIIIIIII(i), 4),
        Instr::LoadReg(d, a) => Row(Opcode::DDAA(0b0111, d, a), Argument::XXXXXXXX, 4),
        Instr::Pop(d) => Row(Opcode::DDXX(0b1000, d), Argument::XXXXXXXX, 4),
        Instr::Swap(d, a) => Row(Opcode::DDAA(0b1001, d, a), Argument::XXXXXXXX, 5),
        Instr::Jmp(i) => Row(Opcode::OOXX(0b101000), Argument::IIIIIIII(i), 3),
        Instr::JmpReg(a) => Row(Opcode::OOAA(0b101001, a), Argument::XXXXXXXX, 3),
        Instr::Call(i) => Row(Opcode::OOXX(0b101010), Argument::IIIIIIII(i), 6),
        Instr::Ret => Row(Opcode::OOXX(0b101011), Argument::XXXXXXXX, 4),
        Instr::Jz(i) => Row(Opcode::OOXX(0b101100), Argument::IIIIIIII(i), 3),
        Instr::Jnz(i) => Row(Opcode::OOXX(0b101101), Argument::IIIIIIII(i), 3),
        Instr::Jc(i) => Row(Opcode::OOXX(0b101110), Argument::IIIIIIII(i), 3),
        Instr::Jnc(i) => Row(Opcode::OOXX(0b101111), Argument::IIIIIIII(i), 3),
        Instr::Jv(i) => Row(Opcode::OOXX(0b110000), Argument::IIIIIIII(i), 3),
        Instr::Jnv(i) => Row(Opcode::OOXX(0b110001), Argument::IIIIIIII(i), 3),
        Instr::Jlz(i) => Row(Opcode::OOXX(0b110010), Argument::IIIIIIII(i), 3),
        Instr::Jp(i) => Row(Opcode::OOXX(0b110011), Argument::IIIIIIII(i), 3),
        Instr::Jgz(i) => Row(Opcode::OOXX(0b110100), Argument::IIIIIIII(i), 3),
        Instr::Jleu(i) => Row(Opcode::OOXX(0b110101), Argument::IIIIIIII(i), 3),
        Instr::Jlt(i) => Row(Opcode::OOXX(0b110110), Argument::IIIIIIII(i), 3),
        Instr::Jle(i) => Row(Opcode::OOXX(0b110111), Argument::IIIIIIII(i), 3),
        Instr::LcdCmd(i) => Row(Opcode::OOXX(0b111000), Argument::IIIIIIII(i), 3),
        Instr::LcdImm(i) => Row(Opcode::OOXX(0b111001), Argument::IIIIIIII(i), 3),
        Instr::LcdReg(a) => Row(Opcode::OOAA(0b111010, a), Argument::XXXXXXXX, 3),
        Instr::LcdMem(i) => Row(Opcode::OOXX(0b111011), Argument::IIIIIIII(i), 4),
        Instr::OutReg(a) => Row(Opcode::OOAA(0b111100, a), Argument::XXXXXXXX, 3),
        Instr::OutMem(i) => Row(Opcode::OOXX(0b111101), Argument::IIIIIIII(i), 4),
        Instr::Hlt => Row(Opcode::OOXX(0b111110), Argument::XXXXXXXX, 2),
        Instr::Nop => Row(Opcode::OOXX(0b111111), Argument::XXXXXXXX, 8),
    }
}

// Cycles of one execution.
pub fn cycles(instr: Instr) -> u8
    ensures { result ≡ cycles_of instr }
{
    layout(instr).2
}
