// The forms that a row of the table of spellings stands for: one for a row of 003's instruction table, up to
// three for a macro.
#![tactic(auto)]

ghost use Rattle.std.specs.Prelude.{◌≡◌, ◌+◌, ◌≤◌, ◌<◌};
ghost use Rattle.spelling.specs.Spellings.{number_in, table_form};
ghost use Rattle.expansion.specs.internal.Forms.{First, Second, Third};

use isa::Instr;
use numbers::Fields;
use spelling::Places;

// The number or address that a row of 003's instruction table shows.
fn number_in(p: Places, to: u8) -> u8
    ensures { result ≡ number_in p to }
{
    if p.imm == 0 { to } else { p.imm }
}

// The form of a row of 003's instruction table.
fn table_form(k: usize, p: Places, to: u8) -> Instr
    requires { k < 70 }
    ensures { result ≡ table_form k p to }
{
    let number = number_in(p, to);
    if k < 16 {
        return Instr::from(Fields(0, p.d, p.a, k as u8, p.b, number));
    }
    if k == 16 {
        return Instr::from(Fields(1, p.d, p.a, 0, p.b, number));
    }
    if k < 33 {
        return Instr::from(Fields(2, p.d, p.a, (k - 17) as u8, p.b, number));
    }
    Instr::from(Fields((k - 30) as u8, p.d, p.a, 0, p.b, number))
}

// The first form of a macro, by its place among the macros.
fn macro_form(m: usize, p: Places, to: u8) -> Instr
    requires { m < 20 }
    ensures { First (70 + m) p to result }
{
    match m {
        0 => Instr::AluNone(p.a, 0b0010, p.b),
        1 => Instr::AluNone(p.a, 0b0101, p.b),
        2 => Instr::AluNone(0, 0b0000, p.a),
        3 => Instr::AddImm(p.a, p.a, 1),
        4 => Instr::AddImm(p.a, p.a, 255),
        5 => Instr::Alu(p.d, p.a, 0b0011, p.a),
        6 => Instr::Swap(p.a, p.a),
        7 => Instr::LcdCmd(0x01),
        8 => Instr::Jz(to),
        9 => Instr::Jnz(to),
        10 => Instr::Jc(to),
        11 => Instr::AluNone(p.b, 0b0010, p.a),
        12 => Instr::AluNone(p.a, 0b0010, p.b),
        13 => Instr::CmpImm(p.a, p.imm),
        14 => Instr::AluNone(p.b, 0b0010, p.a),
        15 => Instr::AluNone(p.b, 0b0010, p.a),
        16 => Instr::CmpImm(p.a, p.imm),
        17 => Instr::CmpImm(p.a, p.imm),
        18 => Instr::CmpImm(p.a, p.imm),
        _ => Instr::LcdCmd(0x38),
    }
}

// The first form of a row.
pub fn first_form(k: usize, p: Places, to: u8) -> Instr
    requires { k < 90 }
    ensures { First k p to result }
{
    if k < spelling::FIRST_MACRO {
        return table_form(k, p, to);
    }
    macro_form(k - spelling::FIRST_MACRO, p, to)
}

// The second form of a macro that has one, which stands at an address.
pub fn second_form(k: usize, to: u8, at: usize) -> Instr
    requires { (81 ≤ k) × (k < 90) × (at ≤ 256) }
    ensures { Second k to at result }
{
    let skip = ((at + 3) % 256) as u8;
    let m = k - spelling::FIRST_PAIR;
    match m {
        0 => Instr::Jc(to),
        1 => Instr::Jnc(to),
        2 => Instr::Jnc(to),
        3 => Instr::Jlt(to),
        4 => Instr::Jle(to),
        5 => Instr::Jleu(skip),
        6 => Instr::Jle(skip),
        7 => Instr::Jlt(skip),
        _ => Instr::LcdCmd(0x0E),
    }
}

// The third form of a macro that has one.
pub fn third_form(k: usize, to: u8) -> Instr
    requires { (86 ≤ k) × (k < 90) }
    ensures { Third k to result }
{
    if k < 89 {
        return Instr::Jmp(to);
    }
    Instr::LcdCmd(0x06)
}
