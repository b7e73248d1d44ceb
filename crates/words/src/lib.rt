// The words of a text stored in two banks.
#![tactic(auto)]

ghost use Rattle.std.specs.Prelude.{◌≡◌, length, set, replicate, ◌≤◌, ◌<◌};
ghost use Rattle.spelling.specs.Spellings.{forms_of};
ghost use Rattle.spelling.specs.internal.Rows.{table_bytes};
ghost use Rattle.labels.specs.Lines.{lines_of};
ghost use Rattle.labels.specs.Labels.{address_of};
ghost use Rattle.words.specs.Program.{opcode_of, argument_of, target_by, program_of};
ghost use Rattle.words.specs.internal.Storing.{stored_in, Ready, LineStored};

use isa::Instr;
use labels::Lines;
use spelling::Places;

// The two bytes of an instruction.
#[derive(Clone, Copy)]
struct Word(u8, u8);

// The two bytes of a form, 0 where the encoder refuses it: the definitions of an opcode and an argument say
// 0 there, and no caller asks which it was, so an Option would be unpacked to the same 0.
fn bytes_of(instr: Instr) -> Word
    ensures { result ≡ (opcode_of instr, argument_of instr) }
{
    let Ok((opcode, argument)) = encoding::encode(instr) else {
        return Word(0, 0);
    };
    Word(opcode, argument)
}

// A form is stored at a place of both banks.
fn store(instr: Instr, at: usize, opcodes: &mut [u8], arguments: &mut [u8])
    ensures { (opcodes.new ≡ set opcodes.old at (opcode_of instr)) × (arguments.new ≡ set arguments.old at (argument_of instr)) }
{
    let w = bytes_of(instr);
    slices::set(opcodes, at, w.0);
    slices::set(arguments, at, w.1);
}

// The forms of a row are stored from a place on.
fn store_row(k: usize, p: Places, to: u8, at: usize, opcodes: &mut [u8], arguments: &mut [u8])
    requires { (k < 90) × (at ≤ 256) }
    ensures { (opcodes.new ≡ stored_in opcode_of (forms_of k p to at) at opcodes.old) × (arguments.new ≡ stored_in argument_of (forms_of k p to at) at arguments.old) }
{
    store(expansion::first_form(k, p, to), at, opcodes, arguments);
    if k < spelling::FIRST_PAIR {
        return;
    }
    store(
        expansion::second_form(k, to, at),
        at + 1,
        opcodes,
        arguments,
    );
    if k < spelling::FIRST_TRIPLE {
        return;
    }
    store(expansion::third_form(k, to), at + 2, opcodes, arguments);
}

// The address of a label: the words before the line that gives it. 0 where none does, as its definition says;
// a text that uses a missing label is refused before, so an Option would be unpacked to the same 0.
fn address(text: &[u8], name: &[u8], addresses: &[u8], starts: &[usize], numbers: &[usize]) -> u8
    requires { (0 < length name.now) × Ready text.now addresses.now starts.now numbers.now }
    ensures { result ≡ address_of name.now (lines_of text.now) }
{
    let Some(line) = labels::given_at(text, name, starts, numbers) else {
        return 0;
    };
    slices::byte_at(addresses, line - 1)
}

// The address @ of a line: a number, or that of the label with this name.
fn operand_address(
    text: &[u8],
    name: &[u8],
    number: u8,
    addresses: &[u8],
    starts: &[usize],
    numbers: &[usize],
) -> u8
    requires { Ready text.now addresses.now starts.now numbers.now }
    ensures { result ≡ target_by (lines_of text.now) name.now number }
{
    if name.len() == 0 {
        return number;
    }
    address(text, name, addresses, starts, numbers)
}

// The forms of a line are stored from a place on; the place after them.
fn store_line(
    table: &[u8],
    text: &[u8],
    line: &[u8],
    at: usize,
    addresses: &[u8],
    starts: &[usize],
    numbers: &[usize],
    opcodes: &mut [u8],
    arguments: &mut [u8],
) -> usize
    requires { (table.now ≡ table_bytes) × (at ≤ 256) × Ready text.now addresses.now starts.now numbers.now }
    ensures { LineStored text.now line.now at result opcodes.old arguments.old opcodes.new arguments.new }
{
    let Some(fit) = labels::read_line(table, line) else {
        return at;
    };
    let places = fit.places;
    let name = slices::part(line, places.from, places.size);
    let to = operand_address(text, name, places.addr, addresses, starts, numbers);
    store_row(fit.row, places, to, at, opcodes, arguments);
    at + labels::row_size(fit.row)
}

// The forms of all lines are stored.
pub fn store_lines(
    table: &[u8],
    text: &[u8],
    addresses: &[u8],
    starts: &[usize],
    numbers: &[usize],
    opcodes: &mut [u8],
    arguments: &mut [u8],
)
    requires { (table.now ≡ table_bytes) × Ready text.now addresses.now starts.now numbers.now }
    ensures { (opcodes.new ≡ stored_in opcode_of (program_of text.now) 0 opcodes.old) × (arguments.new ≡ stored_in argument_of (program_of text.now) 0 arguments.old) }
{
    let mut at: usize = 0;
    for line in Lines::of(text) {
        at = store_line(
            table, text, line.bytes, at, addresses, starts, numbers, opcodes, arguments,
        );
    }
}

// Zeros in the whole of a bank.
pub fn clear(bank: &mut [u8])
    ensures { bank.new ≡ replicate (length bank.old) 0 }
{
    bank.fill(0);
}
