// A draft of what two banks give, and whether admission accepts it.
#![tactic(auto)]

ghost use Rattle.std.specs.Prelude.{◌≡◌, length, replicate};
ghost use Rattle.rules.specs.Grounds.{sheet_size, max_list_size};
ghost use Rattle.drawings.specs.Reached.{banks};
ghost use Rattle.judging.specs.internal.Judging.{Drafted, Judged};

use drafting::MAX_ROUTINES;
use slices::{BANK_SIZE, part};

// A draft of the sheet and the list, and its routines; None where nothing can be admitted.
pub fn draft(opcodes: &[u8], arguments: &[u8], sheet: &mut [u8], list: &mut [u8]) -> Option<usize>
    requires { (length sheet.old ≡ sheet_size) × (list.old ≡ replicate max_list_size 0) }
    ensures { Drafted (banks opcodes.now arguments.now) sheet.new list.new result }
{
    let mut cells = [0u32; BANK_SIZE];
    cells[0] = cells::REACHED;
    if !settling::settle(opcodes, arguments, &mut cells) {
        return None;
    }
    let mut numbers = [0u8; BANK_SIZE];
    let n = drafting::number_routines(&cells, &mut numbers);
    if MAX_ROUTINES < n {
        return None;
    }
    drafting::write_sheet(&cells, &numbers, sheet);
    drafting::write_list(&cells, list);
    Some(n)
}

// The routines of a draft that is admitted; None where nothing is.
pub fn admitted(
    opcodes: &[u8],
    arguments: &[u8],
    sheet: &[u8],
    list: &[u8],
    drafted: Option<usize>,
) -> Option<usize>
    requires { Drafted (banks opcodes.now arguments.now) sheet.now list.now drafted }
    ensures { Judged (banks opcodes.now arguments.now) sheet.now list.now drafted result }
{
    let n = drafted?;
    let answer = admission::cesca_admit(opcodes, arguments, sheet, part(list, 0, 2 * n));
    if answer == 0 { Some(n) } else { None }
}
