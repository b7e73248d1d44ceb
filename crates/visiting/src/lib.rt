// A visit of an address: all that it demands is met.
#![tactic(auto)]

ghost use Rattle.std.specs.Prelude.{◌≡◌, ◌+◌, ◌-◌, length, slice_index};
ghost use Rattle.rules.specs.Successors.{successors};
ghost use Rattle.slices.specs.Sizes.{bank_size};
ghost use Rattle.drawings.specs.Reached.{banks, class_in};
ghost use Rattle.drawings.specs.internal.Cells.{cell, need_in};
ghost use Rattle.drawings.specs.internal.Demands.{room_of, capped, target_of, called, following, demands_at};
ghost use Rattle.drawings.specs.internal.Visits.{Meets};

use addresses::mark_after;
use cells::{entry_cell, meet, unpack, word_of};
use drawings::Cell;
use isa::Class;
use slices::load;
use std::num::wrapping_add_u8;

// The need that a call at a depth asks of its routine, 255 at most.
fn call_room(depth: u8, need: u8) -> u8
    ensures { result ≡ capped (depth + 1 + need) }
{
    let sum = u32::from(depth) + 1 + u32::from(need);
    if sum < 256 { sum as u8 } else { 255 }
}

// The need that an address at a depth asks of its routine.
fn room(cells: &[u32], class: Class, depth: u8) -> u8
    ensures { result ≡ capped (room_of class depth (need_in (slice_index cells.now (target_of class)))) }
{
    match class {
        Class::Call(target) => call_room(depth, unpack(word_of(cells, target)).need),
        _ => depth,
    }
}

// A call's target is made an entry; whether that demand was open.
fn meet_callee(cells: &mut [u32], class: Class) -> bool
    requires { length cells.old ≡ bank_size }
    ensures { Meets cells.old cells.new (called class) result }
{
    match class {
        Class::Call(target) => meet(cells, target, entry_cell(target, 0)),
        _ => false,
    }
}

// A successor's cell: in the same routine, at a depth, with V marked or not.
fn follow(c: Cell, depth: u8, mark: bool) -> Cell
    ensures { result ≡ cell c.entry depth mark 0 }
{
    Cell {
        depth,
        mark,
        need: 0,
        ..c
    }
}

// The successors of an address are made to follow its cell; whether a demand was open.
fn meet_successors(cells: &mut [u32], class: Class, a: u8, c: Cell) -> bool
    requires { length cells.old ≡ bank_size }
    ensures { Meets cells.old cells.new (following c.entry (successors class a c.depth c.mark)) result }
{
    let next = wrapping_add_u8(a, 1);
    let same = follow(c, c.depth, c.mark);
    match class {
        Class::Next(effect) => meet(cells, next, follow(c, c.depth, mark_after(effect, c.mark))),
        Class::Jump(target) => meet(cells, target, same),
        Class::Branch(target, _) => {
            let jumped = meet(cells, target, same);
            jumped | meet(cells, next, same)
        }
        Class::JumpReg => meet(cells, next, same),
        Class::Call(_) => meet(cells, next, follow(c, c.depth, false)),
        Class::Return => false,
        Class::Push(_) => meet(cells, next, follow(c, wrapping_add_u8(c.depth, 1), c.mark)),
        Class::Pop => meet(cells, next, follow(c, c.depth.saturating_sub(1), c.mark)),
        Class::Swap(_) => meet(cells, next, same),
        Class::Halt => false,
    }
}

// The class of the instruction at an address.
pub fn class_at(opcodes: &[u8], arguments: &[u8], a: u8) -> Class
    ensures { result ≡ class_in (banks opcodes.now arguments.now) a }
{
    let facts = classes::classify(decoding::decode(load(opcodes, a), load(arguments, a)));
    let class = facts.0;
    class
}

// All that an address demands is met; whether a demand was open.
pub fn visit(opcodes: &[u8], arguments: &[u8], cells: &mut [u32], a: u8) -> bool
    requires { length cells.old ≡ bank_size }
    ensures { Meets cells.old cells.new (demands_at (banks opcodes.now arguments.now) cells.old a) result }
{
    let w = word_of(cells, a);
    if w == 0 {
        return false;
    }
    let c = unpack(w);
    let class = class_at(opcodes, arguments, a);
    let need = room(cells, class, c.depth);
    let own = meet(cells, c.entry, entry_cell(c.entry, need));
    let called = meet_callee(cells, class);
    let followed = meet_successors(cells, class, a, c);
    own | (called | followed)
}
