// The page of busy addresses, written on a lent buffer.
#![tactic(auto)]

ghost use Rattle.std.specs.Prelude.{◌≡◌, ◌≤◌, length};
ghost use Rattle.slices.specs.Sizes.{bank_size};
ghost use Rattle.pages.specs.Page.{page, write_of};
ghost use Rattle.isa.specs.Decode.{decode_of};
ghost use Rattle.printing.specs.Print.{text_of, text_width, columns};
ghost use Rattle.busy_runs.specs.Lines.{line_of};
ghost use Rattle.busy_runs.specs.internal.Writing.{program, Narrow, PageWritten};

use decoding::low_pair;
use isa::Instr;
use numbers::Fields;
use pages::columns::{write_hex, write_right};
use pages::{put, write};
use ranking::{ADDRESSES, count_at, next_after};
use slices::load;

// The columns of a count.
const COUNT_WIDTH: usize = 7;

// The form of an opcode by its upper six bits, four of them to a line.
const FORMS: [u8; 64] = *b"\
    \x00\x00\x00\x00\
    \x01\x01\x01\x01\
    \x02\x03\x04\x05\
    \x06\x06\x06\x06\
    \x07\x07\x07\x07\
    \x08\x09\x0A\x0B\
    \x0C\x0C\x0C\x0C\
    \x0D\x0D\x0D\x0D\
    \x0E\x0E\x0E\x0E\
    \x0F\x0F\x0F\x0F\
    \x10\x11\x12\x13\
    \x14\x15\x16\x17\
    \x18\x19\x1A\x1B\
    \x1C\x1D\x1E\x1F\
    \x20\x21\x22\x23\
    \x24\x25\x26\x27\
    ";

// The instruction of two bytes, by the table of forms. `decoding::decode` is left to the step: with a
// second caller in the archive it would not be inlined into the run's loop, and a step take twice as
// long.
fn instruction(opcode: u8, argument: u8) -> Instr
    ensures { result ≡ decode_of opcode argument }
{
    let forms = FORMS;
    Instr::from(Fields(
        forms[usize::from(opcode >> 2)],
        low_pair(opcode >> 2),
        low_pair(opcode),
        argument >> 4,
        low_pair(argument),
        argument,
    ))
}

// The text of the instruction that two bytes are, with spaces behind it up to its columns.
fn text_columns(opcode: u8, argument: u8) -> [u8; 23]
    ensures { (result ≡ columns (text_of (decode_of opcode argument))) × (length (text_of (decode_of opcode argument)) ≤ text_width) }
{
    let printed = printing::print(instruction(opcode, argument));
    printed.2
}

// An address's line is written from a place on; the place after it.
fn write_line(
    out: &mut [u8],
    at: usize,
    opcodes: &[u8],
    arguments: &[u8],
    counters: &[u32],
    a: u8,
) -> usize
    ensures { (page out.new result ≡ write_of (line_of (program opcodes.now arguments.now) counters.now a) (page out.old at)) × Narrow (program opcodes.now arguments.now) a }
{
    let count = count_at(counters, usize::from(a));
    let text = text_columns(load(opcodes, a), load(arguments, a));
    let mut next = write_hex(out, at, a);
    next = put(out, next, b' ');
    next = write_right(out, next, COUNT_WIDTH, count);
    next = put(out, next, b' ');
    next = write(out, next, &text);
    put(out, next, b'\n')
}

// The lines of the executed addresses are written from the beginning on, the busiest first; how many
// they are.
pub fn write_page(opcodes: &[u8], arguments: &[u8], counters: &[u32], out: &mut [u8]) -> usize
    requires { length counters.now ≡ bank_size }
    ensures { PageWritten (program opcodes.now arguments.now) counters.now out.old result out.new }
{
    let mut at: usize = 0;
    let mut last = None;
    for lines in 0..ADDRESSES {
        let Some(next) = next_after(counters, last) else {
            return lines;
        };
        at = write_line(out, at, opcodes, arguments, counters, next as u8);
        last = Some(next);
    }
    ADDRESSES
}
