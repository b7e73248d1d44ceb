// The functions for single instructions that a host calls, on numbers and slices.
#![tactic(auto)]

ghost use Rattle.std.specs.Prelude.{◌≡◌};
ghost use Rattle.numbers.specs.Numbers.{instr_of, fact_numbers_of};
ghost use Rattle.boundary.specs.Exports.{Decoded, EncodedAs, PutNumber, ComputedAs};

use isa::{Facts, Instr};
use numbers::{ComputedNumbers, Encoding, FactNumbers, Fields};

// The instruction of an opcode byte and an argument byte, as numbers.
pub fn cesca_decode(opcode: u8, argument: u8) -> Fields
    ensures { Decoded opcode argument result }
{
    Fields::from(decoding::decode(opcode, argument))
}

// The two bytes of an instruction, or the number of its refusal.
pub fn cesca_encode(fields: Fields) -> Encoding
    ensures { EncodedAs fields result }
{
    Encoding::from(encoding::encode(Instr::from(fields)))
}

// 0 and the instruction put into the two banks at an address, or the number of a refusal that
// leaves both banks as they were.
pub fn cesca_put(fields: Fields, opcodes: &mut [u8], arguments: &mut [u8], at: u8) -> u8
    ensures { PutNumber (instr_of fields) opcodes.old arguments.old at result opcodes.new arguments.new }
{
    encoding::number(encoding::put(Instr::from(fields), opcodes, arguments, at))
}

// Function f of Ra's byte x, Rb's byte y and the carry flag: result and flags as numbers.
pub fn cesca_alu(f: u8, x: u8, y: u8, c: bool) -> ComputedNumbers
    ensures { ComputedAs f x y c result }
{
    ComputedNumbers::from(alu::alu(f, x, y, c))
}

// An instruction's cycles, class, effect on V and use of the roll, as numbers.
pub fn cesca_facts(fields: Fields) -> FactNumbers
    ensures { result ≡ fact_numbers_of (instr_of fields) }
{
    let instr = Instr::from(fields);
    let Facts(class, roll) = classes::classify(instr);
    numbers::fact_numbers(rows::cycles(instr), class, roll)
}
