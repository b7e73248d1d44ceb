// The functions for listings as text that a host calls, on numbers and slices.
#![tactic(auto)]

ghost use Rattle.source.specs.Source.{PrintedAs, AssembledAs};

use assembling::Assembled;
use isa::Instr;
use numbers::Fields;
use printing::Printed;

// The text of an instruction, or the number of its refusal.
pub fn cesca_print(fields: Fields) -> Printed
    ensures { PrintedAs fields result }
{
    printing::print(Instr::from(fields))
}

// A text assembled into both banks, or the number and line of a refusal that leaves them as they were.
pub fn cesca_assemble(text: &[u8], opcodes: &mut [u8], arguments: &mut [u8]) -> Assembled
    ensures { AssembledAs text.now opcodes.old arguments.old result opcodes.new arguments.new }
{
    assembling::assemble(text, opcodes, arguments)
}
