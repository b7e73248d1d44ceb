// The rules 8 to 16 at an address.
#![tactic(auto)]

ghost use Rattle.std.specs.Prelude.{◌≡◌, ◌+◌, ◌*◌, cond, ◌/◌, false, ◌&&◌, [], length, ◌==◌, nat_lt, slice_index};
ghost use Rattle.sheets.specs.Grounds.{answer_of};
ghost use Rattle.isa.specs.declared.Class.TheVariants.{Next, Branch, Call};
ghost use Rattle.isa.specs.declared.OverflowEffect.TheVariants.{Keeps};
ghost use Rattle.rules.specs.Grounds.{address_checks};
ghost use Rattle.slices.specs.Checks.{first_broken};
ghost use Rattle.rules.specs.Sheet.{listing};
ghost use Rattle.rules.specs.Successors.{mark_after};
ghost use Rattle.addresses.specs.internal.Parts.{without_banks, class_checks, EntriesFit};

use isa::{Class, OverflowEffect};
use sheets::grounds::{Ground, Rule, bad_successor, refuse_if};
use sheets::{entry_of, need_of, word_at};
use slices::load;
use std::num::wrapping_add_u8;

// Whether V may be marked after an instruction.
pub fn mark_after(effect: OverflowEffect, marked: bool) -> bool
    ensures { result ≡ mark_after effect marked }
{
    match effect {
        OverflowEffect::Keeps => marked,
        OverflowEffect::Settles => true,
        OverflowEffect::Unsettles => false,
    }
}

// 9 to 16 where the next word is the one successor, at this depth and with V marked or not.
fn next_word_ground(sheet: &[u8], a: u8, routine: u8, depth: u16, mark: bool) -> Result<(), Ground>
    ensures { answer_of result ≡ first_broken (class_checks (without_banks sheet.now []) a (Next Keeps) routine depth mark) }
{
    refuse_if(a == 255, Rule::LastAddress, a)?;
    let bad = bad_successor(sheet, wrapping_add_u8(a, 1), routine, depth, mark);
    refuse_if(bad, Rule::Successor, a)
}

// 9 to 16 at pop or swap at a depth, which leaves the other depth and V as it is.
fn top_byte_ground(
    sheet: &[u8],
    a: u8,
    routine: u8,
    depth: u8,
    left: u8,
    marked: bool,
) -> Result<(), Ground>
    ensures { answer_of result ≡ cond (depth == 0) (11 + 256 * a) (first_broken (class_checks (without_banks sheet.now []) a (Next Keeps) routine left marked)) }
{
    refuse_if(depth == 0, Rule::PopOrSwap, a)?;
    next_word_ground(sheet, a, routine, u16::from(left), marked)
}

// 9 to 16 at a conditional jump, which tests V or not.
fn branch_ground(
    sheet: &[u8],
    a: u8,
    target: u8,
    tests: bool,
    routine: u8,
    depth: u8,
    marked: bool,
) -> Result<(), Ground>
    ensures { answer_of result ≡ first_broken (class_checks (without_banks sheet.now []) a (Branch target tests) routine depth marked) }
{
    refuse_if(tests & !marked, Rule::UnmarkedV, a)?;
    refuse_if(a == 255, Rule::LastAddress, a)?;
    let kept = u16::from(depth);
    let bad_target = bad_successor(sheet, target, routine, kept, marked);
    let bad_next = bad_successor(sheet, wrapping_add_u8(a, 1), routine, kept, marked);
    refuse_if(bad_target | bad_next, Rule::Successor, a)
}

// Whether a listed routine has this entry.
fn is_entry(list: &[u8], routine: u8, entry: u8) -> bool
    ensures { result ≡ nat_lt routine (length list.now / 2) && (slice_index list.now (2 * routine) == entry) }
{
    (usize::from(routine) < list.len() / 2) & (entry_of(list, routine) == entry)
}

// 9 to 16 at a call. Entries have their own routine's word (7), so the target's word names the
// callee.
fn call_ground(
    sheet: &[u8],
    list: &[u8],
    a: u8,
    target: u8,
    routine: u8,
    depth: u8,
) -> Result<(), Ground>
    requires { EntriesFit (without_banks sheet.now list.now) }
    ensures { answer_of result ≡ first_broken (class_checks (without_banks sheet.now list.now) a (Call target) routine depth false) }
{
    let callee = word_at(sheet, target).routine;
    refuse_if(a == 255, Rule::LastAddress, a)?;
    refuse_if(!is_entry(list, callee, target), Rule::Callee, a)?;
    let need = u16::from(need_of(list, routine));
    let kept = u16::from(depth);
    let total = kept + 1 + u16::from(need_of(list, callee));
    refuse_if(need < total, Rule::Need, a)?;
    let bad_return = bad_successor(sheet, wrapping_add_u8(a, 1), routine, kept, false);
    refuse_if(bad_return, Rule::Successor, a)
}

// 9 to 16 at an address of a class, in a routine, at a depth, with V marked or not.
fn class_ground(
    class: Class,
    sheet: &[u8],
    list: &[u8],
    a: u8,
    routine: u8,
    depth: u8,
    marked: bool,
) -> Result<(), Ground>
    requires { EntriesFit (without_banks sheet.now list.now) }
    ensures { answer_of result ≡ first_broken (class_checks (without_banks sheet.now list.now) a class routine depth marked) }
{
    let kept = u16::from(depth);
    match class {
        Class::Next(effect) => {
            next_word_ground(sheet, a, routine, kept, mark_after(effect, marked))
        }
        Class::Jump(target) => {
            let bad_target = bad_successor(sheet, target, routine, kept, marked);
            refuse_if(bad_target, Rule::Successor, a)
        }
        Class::Branch(target, tests) => {
            branch_ground(sheet, a, target, tests, routine, depth, marked)
        }
        Class::JumpReg => refuse_if(true, Rule::JumpByRegister, a),
        Class::Call(target) => call_ground(sheet, list, a, target, routine, depth),
        Class::Return => refuse_if((routine == 0) | (0 < depth), Rule::Return, a),
        Class::Push(_) => next_word_ground(sheet, a, routine, kept + 1, marked),
        Class::Pop => { top_byte_ground(sheet, a, routine, depth, depth.saturating_sub(1), marked) }
        Class::Swap(_) => top_byte_ground(sheet, a, routine, depth, depth, marked),
        Class::Halt => Ok(()),
    }
}

// The first of 8 to 16 that a described address breaks.
pub fn address_ground(
    opcodes: &[u8],
    arguments: &[u8],
    sheet: &[u8],
    list: &[u8],
    a: u8,
) -> Result<(), Ground>
    requires { EntriesFit (without_banks sheet.now list.now) }
    ensures { answer_of result ≡ first_broken (address_checks (listing opcodes.now arguments.now sheet.now list.now) a) }
{
    let w = word_at(sheet, a);
    if !w.described {
        return Ok(());
    }
    refuse_if(need_of(list, w.routine) < w.depth, Rule::Depth, a)?;
    let facts = classes::classify(decoding::decode(load(opcodes, a), load(arguments, a)));
    class_ground(facts.0, sheet, list, a, w.routine, w.depth, w.marked)
}
