// The demands of all addresses are met until none is open.
#![tactic(auto)]

ghost use Rattle.std.specs.Prelude.{◌≡◌, cond, ◌-◌, length};
ghost use Rattle.slices.specs.Sizes.{bank_size};
ghost use Rattle.drawings.specs.Reached.{banks};
ghost use Rattle.drawings.specs.internal.Visits.{Visits, Passes, start};
ghost use Rattle.drawings.specs.internal.Impossible.{impossible, Refutes, Settles};

use cells::{unpack, word_of};
use drawings::Cell;
use isa::Class;
use visiting::class_at;

// The address that comes at a place of a pass: upwards or downwards.
fn turn(up: bool, place: u8) -> u8
    ensures { result ≡ cond up place (255 - place) }
{
    if up { place } else { 255 - place }
}

// Every address is visited once; whether a demand was open.
fn pass(opcodes: &[u8], arguments: &[u8], cells: &mut [u32], up: bool) -> bool
    requires { (Visits (banks opcodes.now arguments.now) cells.old) × (length cells.old ≡ bank_size) }
    ensures { Passes (banks opcodes.now arguments.now) cells.old cells.new result }
{
    let mut changed = false;
    for place in 0..=255u8 {
        changed |= visiting::visit(opcodes, arguments, cells, turn(up, place));
    }
    changed
}

// Whether no sheet keeps the rules 9 to 13 at an address of a class with this cell.
fn is_impossible(class: Class, a: u8, c: Cell) -> bool
    ensures { result ≡ impossible class a c }
{
    let last = a == 255;
    match class {
        Class::Next(_) => last,
        Class::Jump(_) => false,
        Class::Branch(_, tests) => (tests & !c.mark) | last,
        Class::JumpReg => true,
        Class::Call(_) => last,
        Class::Return => (c.entry == 0) | (0 < c.depth),
        Class::Push(_) => last,
        Class::Pop => (c.depth == 0) | last,
        Class::Swap(_) => (c.depth == 0) | last,
        Class::Halt => false,
    }
}

// Whether an address is reached and impossible.
fn hinders(opcodes: &[u8], arguments: &[u8], cells: &[u32], a: u8) -> bool
    requires { Visits (banks opcodes.now arguments.now) cells.now }
    ensures { Refutes (banks opcodes.now arguments.now) result }
{
    let w = word_of(cells, a);
    if w == 0 {
        return false;
    }
    is_impossible(class_at(opcodes, arguments, a), a, unpack(w))
}

// Whether some address is reached and impossible.
fn is_hopeless(opcodes: &[u8], arguments: &[u8], cells: &[u32]) -> bool
    requires { Visits (banks opcodes.now arguments.now) cells.now }
    ensures { Refutes (banks opcodes.now arguments.now) result }
{
    (0..=255u8).any(|a| hinders(opcodes, arguments, cells, a))
}

// The cells are settled; or false, and then nothing can be admitted, as most banks of no use show
// after the first pass. Passes go upwards and downwards in turn, since calls lead to either side; a
// `while`, since nobody knows how many it takes.
pub fn settle(opcodes: &[u8], arguments: &[u8], cells: &mut [u32]) -> bool
    requires { cells.old ≡ start }
    ensures { Settles (banks opcodes.now arguments.now) cells.new result }
{
    let mut changed = pass(opcodes, arguments, cells, true);
    if is_hopeless(opcodes, arguments, cells) {
        return false;
    }
    let mut up = false;
    while changed {
        changed = pass(opcodes, arguments, cells, up);
        up = !up;
    }
    true
}
