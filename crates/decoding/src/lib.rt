// Two bytes read as one of the forty forms.
#![tactic(auto)]

ghost use Rattle.std.specs.Prelude.{◌≡◌, ◌/◌, ◌%◌, ◌+◌, ◌<◌};
ghost use Rattle.isa.specs.Decode.{form_of};
ghost use Rattle.isa.specs.RoundTrip.{Decodes};

use isa::Instr;

// Bits 1 and 0: Ra of an opcode, Rb of an argument; of an opcode's upper six bits, Rd.
pub fn low_pair(x: u8) -> u8
    ensures { result ≡ x % 4 }
{
    x & 3
}

// Bits 7 to 4: the function of an argument.
fn high_nibble(x: u8) -> u8
    ensures { result ≡ x / 16 }
{
    x >> 4
}

// The form of an opcode from 16 on, g its upper six bits less four. Each of the 60 has an arm, the
// last one too, so that the match becomes one jump without a test of the range; `_` is never
// reached. The function and Rb, which few forms have, are cut in the arms of these, so that the
// run's loop holds fewer values.
fn form(g: u8, a: u8, i: u8) -> Instr
    requires { g < 60 }
    ensures { result ≡ form_of (g / 4 + 1) (g % 4) a (i / 16) (i % 4) i }
{
    let d = low_pair(g);
    match g {
        0 => Instr::AddImm(d, a, i),
        1 => Instr::AddImm(d, a, i),
        2 => Instr::AddImm(d, a, i),
        3 => Instr::AddImm(d, a, i),
        4 => Instr::AluNone(a, high_nibble(i), low_pair(i)),
        5 => Instr::CmpImm(a, i),
        6 => Instr::MaskImm(a, i),
        7 => Instr::MaskIn(i),
        8 => Instr::MovImm(d, i),
        9 => Instr::MovImm(d, i),
        10 => Instr::MovImm(d, i),
        11 => Instr::MovImm(d, i),
        12 => Instr::MovIn(d),
        13 => Instr::MovIn(d),
        14 => Instr::MovIn(d),
        15 => Instr::MovIn(d),
        16 => Instr::Ack,
        17 => Instr::StoreAddr(a, i),
        18 => Instr::StoreReg(a, low_pair(i)),
        19 => Instr::Push(a),
        20 => Instr::LoadAddr(d, i),
        21 => Instr::LoadAddr(d, i),
        22 => Instr::LoadAddr(d, i),
        23 => Instr::LoadAddr(d, i),
        24 => Instr::LoadReg(d, a),
        25 => Instr::LoadReg(d, a),
        26 => Instr::LoadReg(d, a),
        27 => Instr::LoadReg(d, a),
        28 => Instr::Pop(d),
        29 => Instr::Pop(d),
        30 => Instr::Pop(d),
        31 => Instr::Pop(d),
        32 => Instr::Swap(d, a),
        33 => Instr::Swap(d, a),
        34 => Instr::Swap(d, a),
        35 => Instr::Swap(d, a),
        36 => Instr::Jmp(i),
        37 => Instr::JmpReg(a),
        38 => Instr::Call(i),
        39 => Instr::Ret,
        40 => Instr::Jz(i),
        41 => Instr::Jnz(i),
        42 => Instr::Jc(i),
        43 => Instr::Jnc(i),
        44 => Instr::Jv(i),
        45 => Instr::Jnv(i),
        46 => Instr::Jlz(i),
        47 => Instr::Jp(i),
        48 => Instr::Jgz(i),
        49 => Instr::Jleu(i),
        50 => Instr::Jlt(i),
        51 => Instr::Jle(i),
        52 => Instr::LcdCmd(i),
        53 => Instr::LcdImm(i),
        54 => Instr::LcdReg(a),
        55 => Instr::LcdMem(i),
        56 => Instr::OutReg(a),
        57 => Instr::OutMem(i),
        58 => Instr::Hlt,
        59 => Instr::Nop,
        _ => Instr::Nop,
    }
}

// The instruction of an opcode byte and an argument byte. The ALU's opcodes are asked for first: a
// run then jumps by their function alone, and not by the opcode before it.
pub fn decode(opcode: u8, argument: u8) -> Instr
    ensures { Decodes opcode argument result }
{
    if 15 < opcode {
        form((opcode - 16) >> 2, low_pair(opcode), argument)
    } else {
        Instr::Alu(
            low_pair(opcode >> 2),
            low_pair(opcode),
            high_nibble(argument),
            low_pair(argument),
        )
    }
}
