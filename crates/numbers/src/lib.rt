// An instruction, an encoder's answer, a result with flags and an instruction's facts as numbers, and back.
// `specs/Numbers.antt` says what each number means.
#![tactic(auto)]

ghost use Rattle.std.specs.Prelude.{◌≡◌};
ghost use Rattle.numbers.specs.Numbers.{fields_of, instr_of, encoding_of, overflow_number, computed_numbers, effect_number, fact_numbers};

use alu::{Computed, Overflow};
use isa::{Class, EncodeError, Instr, OverflowEffect};

// An instruction: row of the instruction table, d, a, f, b, immediate or address.
#[repr(C)]
#[derive(Clone, Copy)]
pub struct Fields(pub u8, pub u8, pub u8, pub u8, pub u8, pub u8);

// An encoder's answer: number, opcode, argument.
#[repr(C)]
#[derive(Clone, Copy)]
pub struct Encoding(pub u8, pub u8, pub u8);

// A result with flags: value, Z, C, S, V.
#[repr(C)]
#[derive(Clone, Copy)]
pub struct ComputedNumbers(pub u8, pub bool, pub bool, pub bool, pub u8);

// An instruction's facts: cycles, class, operand, effect on V, tests V, writes the roll.
#[repr(C)]
#[derive(Clone, Copy)]
pub struct FactNumbers(pub u8, pub u8, pub u8, pub u8, pub bool, pub bool);

// The numbers of an instruction.
impl From<Instr> for Fields {
    ghost from_gives = { λ instr x. x ≡ fields_of instr };

    fn from(instr: Instr) -> Fields {
        match instr {
            Instr::Alu(d, a, f, b) => Fields(0, d, a, f, b, 0),
            Instr::AddImm(d, a, i) => Fields(1, d, a, 0, 0, i),
            Instr::AluNone(a, f, b) => Fields(2, 0, a, f, b, 0),
            Instr::CmpImm(a, i) => Fields(3, 0, a, 0, 0, i),
            Instr::MaskImm(a, i) => Fields(4, 0, a, 0, 0, i),
            Instr::MaskIn(i) => Fields(5, 0, 0, 0, 0, i),
            Instr::MovImm(d, i) => Fields(6, d, 0, 0, 0, i),
            Instr::MovIn(d) => Fields(7, d, 0, 0, 0, 0),
            Instr::Ack => Fields(8, 0, 0, 0, 0, 0),
            Instr::StoreAddr(a, i) => Fields(9, 0, a, 0, 0, i),
            Instr::StoreReg(a, b) => Fields(10, 0, a, 0, b, 0),
            Instr::Push(a) => Fields(11, 0, a, 0, 0, 0),
            Instr::LoadAddr(d, i) => Fields(12, d, 0, 0, 0, i),
            Instr::LoadReg(d, a) => Fields(13, d, a, 0, 0, 0),
            Instr::Pop(d) => Fields(14, d, 0, 0, 0, 0),
            Instr::Swap(d, a) => Fields(15, d, a, 0, 0, 0),
            Instr::Jmp(i) => Fields(16, 0, 0, 0, 0, i),
            Instr::JmpReg(a) => Fields(17, 0, a, 0, 0, 0),
            Instr::Call(i) => Fields(18, 0, 0, 0, 0, i),
            Instr::Ret => Fields(19, 0, 0, 0, 0, 0),
            Instr::Jz(i) => Fields(20, 0, 0, 0, 0, i),
            Instr::Jnz(i) => Fields(21, 0, 0, 0, 0, i),
            Instr::Jc(i) => Fields(22, 0, 0, 0, 0, i),
            Instr::Jnc(i) => Fields(23, 0, 0, 0, 0, i),
            Instr::Jv(i) => Fields(24, 0, 0, 0, 0, i),
            Instr::Jnv(i) => Fields(25, 0, 0, 0, 0, i),
            Instr::Jlz(i) => Fields(26, 0, 0, 0, 0, i),
            Instr::Jp(i) => Fields(27, 0, 0, 0, 0, i),
            Instr::Jgz(i) => Fields(28, 0, 0, 0, 0, i),
            Instr::Jleu(i) => Fields(29, 0, 0, 0, 0, i),
            Instr::Jlt(i) => Fields(30, 0, 0, 0, 0, i),
            Instr::Jle(i) => Fields(31, 0, 0, 0, 0, i),
            Instr::LcdCmd(i) => Fields(32, 0, 0, 0, 0, i),
            Instr::LcdImm(i) => Fields(33, 0, 0, 0, 0, i),
            Instr::LcdReg(a) => Fields(34, 0, a, 0, 0, 0),
            Instr::LcdMem(i) => Fields(35, 0, 0, 0, 0, i),
            Instr::OutReg(a) => Fields(36, 0, a, 0, 0, 0),
            Instr::OutMem(i) => Fields(37, 0, 0, 0, 0, i),
            Instr::Hlt => Fields(38, 0, 0, 0, 0, 0),
            Instr::Nop => Fields(39, 0, 0, 0, 0, 0),
        }
    }
}

// The instruction of these numbers.
impl From<Fields> for Instr {
    ghost from_gives = { λ x instr. instr ≡ instr_of x };

    #[tactic(auto, unfolding(crate::specs::Numbers::instr_of))]
    fn from(x: Fields) -> Instr {
        let Fields(form, d, a, f, b, i) = x;
        match form {
            0 => Instr::Alu(d, a, f, b),
            1 => Instr::AddImm(d, a, i),
            2 => Instr::AluNone(a, f, b),
            3 => Instr::CmpImm(a, i),
            4 => Instr::MaskImm(a, i),
            5 => Instr::MaskIn(i),
            6 => Instr::MovImm(d, i),
            7 => Instr::MovIn(d),
            8 => Instr::Ack,
            9 => Instr::StoreAddr(a, i),
            10 => Instr::StoreReg(a, b),
            11 => Instr::Push(a),
            12 => Instr::LoadAddr(d, i),
            13 => Instr::LoadReg(d, a),
            14 => Instr::Pop(d),
            15 => Instr::Swap(d, a),
            16 => Instr::Jmp(i),
            17 => Instr::JmpReg(a),
            18 => Instr::Call(i),
            19 => Instr::Ret,
            20 => Instr::Jz(i),
            21 => Instr::Jnz(i),
            22 => Instr::Jc(i),
            23 => Instr::Jnc(i),
            24 => Instr::Jv(i),
            25 => Instr::Jnv(i),
            26 => Instr::Jlz(i),
            27 => Instr::Jp(i),
            28 => Instr::Jgz(i),
            29 => Instr::Jleu(i),
            30 => Instr::Jlt(i),
            31 => Instr::Jle(i),
            32 => Instr::LcdCmd(i),
            33 => Instr::LcdImm(i),
            34 => Instr::LcdReg(a),
            35 => Instr::LcdMem(i),
            36 => Instr::OutReg(a),
            37 => Instr::OutMem(i),
            38 => Instr::Hlt,
            _ => Instr::Nop,
        }
    }
}

// The numbers of an encoder's answer.
impl From<Result<(u8, u8), EncodeError>> for Encoding {
    ghost from_gives = { λ answer x. x ≡ encoding_of answer };

    fn from(answer: Result<(u8, u8), EncodeError>) -> Encoding {
        match answer {
            Ok((opcode, argument)) => Encoding(0, opcode, argument),
            Err(_) => Encoding(encoding::number(answer), 0, 0),
        }
    }
}

// The number of V. A `From` would have to stand in `alu`, which knows nothing of C's numbers.
pub fn overflow_number(v: Overflow) -> u8
    ensures { result ≡ overflow_number v }
{
    match v {
        Overflow::Settled(set) => u8::from(set),
        Overflow::Unsettled => 2,
    }
}

// The numbers of a result with its flags.
impl From<Computed> for ComputedNumbers {
    ghost from_gives = { λ r x. x ≡ computed_numbers r };

    fn from(r: Computed) -> ComputedNumbers {
        let flags = r.flags;
        ComputedNumbers(r.value, flags.z, flags.c, flags.s, overflow_number(flags.v))
    }
}

// The number of an effect on V: no `From`, likewise, in `isa`.
pub fn effect_number(e: OverflowEffect) -> u8
    ensures { result ≡ effect_number e }
{
    match e {
        OverflowEffect::Keeps => 0,
        OverflowEffect::Settles => 1,
        OverflowEffect::Unsettles => 2,
    }
}

// The numbers of an instruction's cycles n, its class, and whether it writes the roll. A `From` of a
// tuple of the three would be no plainer.
pub fn fact_numbers(n: u8, class: Class, roll: bool) -> FactNumbers
    ensures { result ≡ fact_numbers n class roll }
{
    match class {
        Class::Next(e) => FactNumbers(n, 0, 0, effect_number(e), false, roll),
        Class::Jump(to) => FactNumbers(n, 1, to, 0, false, roll),
        Class::Branch(to, tests) => FactNumbers(n, 2, to, 0, tests, roll),
        Class::JumpReg => FactNumbers(n, 3, 0, 0, false, roll),
        Class::Call(to) => FactNumbers(n, 4, to, 0, false, roll),
        Class::Return => FactNumbers(n, 5, 0, 0, false, roll),
        Class::Push(a) => FactNumbers(n, 6, a, 0, false, roll),
        Class::Pop => FactNumbers(n, 7, 0, 0, false, roll),
        Class::Swap(a) => FactNumbers(n, 8, a, 0, false, roll),
        Class::Halt => FactNumbers(n, 9, 0, 0, false, roll),
    }
}
