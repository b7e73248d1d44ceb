// An instruction's two bytes, joined from its row, and putting them into the two banks.
#![tactic(auto)]

ghost use Rattle.std.specs.Prelude.{◌≡◌, false};
ghost use Rattle.isa.specs.Encode.{bad_in_opcode, bad_in_argument, bad_function, opcode_byte, argument_byte, join_of, number_of, Put};
ghost use Rattle.isa.specs.RoundTrip.{Encodes};

use isa::{Argument, EncodeError, Instr, Opcode, Row};

// Whether a register number in the opcode is over 3.
fn is_bad_opcode(o: Opcode) -> bool
    ensures { result ≡ bad_in_opcode o }
{
    match o {
        Opcode::DDAA(_, d, a) => (3 < d) | (3 < a),
        Opcode::DDXX(_, d) => 3 < d,
        Opcode::OOAA(_, a) => 3 < a,
        Opcode::OOXX(_) => false,
    }
}

// Whether a register number in the argument is over 3.
fn is_bad_argument(g: Argument) -> bool
    ensures { result ≡ bad_in_argument g }
{
    match g {
        Argument::FFFFXXBB(_, b) => 3 < b,
        Argument::IIIIIIII(_) => false,
        Argument::XXXXXXBB(b) => 3 < b,
        Argument::XXXXXXXX => false,
    }
}

// Whether a function number in the argument is over 15.
fn is_bad_function(g: Argument) -> bool
    ensures { result ≡ bad_function g }
{
    match g {
        Argument::FFFFXXBB(f, _) => 15 < f,
        Argument::IIIIIIII(_) | Argument::XXXXXXBB(_) | Argument::XXXXXXXX => false,
    }
}

// The opcode byte, free bits 0.
fn opcode_byte(o: Opcode) -> u8
    requires { bad_in_opcode o ≡ false }
    ensures { result ≡ opcode_byte o }
{
    match o {
        Opcode::DDAA(p, d, a) => (p << 4) | (d << 2) | a,
        Opcode::DDXX(p, d) => (p << 4) | (d << 2),
        Opcode::OOAA(p, a) => (p << 2) | a,
        Opcode::OOXX(p) => p << 2,
    }
}

// The argument byte, free bits 0.
fn argument_byte(g: Argument) -> u8
    requires { (bad_in_argument g ≡ false) × (bad_function g ≡ false) }
    ensures { result ≡ argument_byte g }
{
    match g {
        Argument::FFFFXXBB(f, b) => (f << 4) | b,
        Argument::IIIIIIII(i) => i,
        Argument::XXXXXXBB(b) => b,
        Argument::XXXXXXXX => 0,
    }
}

// The two bytes of a row, or 22 before 23.
fn join(row: Row) -> Result<(u8, u8), EncodeError>
    ensures { result ≡ join_of row }
{
    let Row(o, g, _) = row;
    if is_bad_opcode(o) | is_bad_argument(g) {
        return Err(EncodeError::BadRegister);
    }
    if is_bad_function(g) {
        return Err(EncodeError::BadFunction);
    }
    Ok((opcode_byte(o), argument_byte(g)))
}

// The two bytes of an instruction, or its refusal.
pub fn encode(instr: Instr) -> Result<(u8, u8), EncodeError>
    ensures { Encodes instr result }
{
    join(rows::layout(instr))
}

// 01's number of an answer, 0 where nothing is refused, as C reads it.
pub fn number(answer: Result<(u8, u8), EncodeError>) -> u8
    ensures { result ≡ number_of answer }
{
    match answer {
        Ok(_) => 0,
        Err(EncodeError::BadBank) => 1,
        Err(EncodeError::BadRegister) => 22,
        Err(EncodeError::BadFunction) => 23,
    }
}

// An instruction put into the two banks at an address: its bytes, or the refusal that leaves both
// banks as they were.
pub fn put(
    instr: Instr,
    opcodes: &mut [u8],
    arguments: &mut [u8],
    at: u8,
) -> Result<(u8, u8), EncodeError>
    ensures { Put instr opcodes.old arguments.old at result opcodes.new arguments.new }
{
    if opcodes.len() != slices::BANK_SIZE {
        return Err(EncodeError::BadBank);
    }
    if arguments.len() != slices::BANK_SIZE {
        return Err(EncodeError::BadBank);
    }
    let e = encode(instr);
    // The papers ask for `let .. else` here, where `?` would do.
    let Ok((opcode, argument)) = e else {
        return e;
    };
    let place = usize::from(at);
    opcodes[place] = opcode;
    arguments[place] = argument;
    Ok((opcode, argument))
}
