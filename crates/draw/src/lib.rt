// Sheets drawn for members: the function that a host calls.
#![tactic(auto)]

ghost use Rattle.drawings.specs.Drawn.{lent, outcome, DrawnAs};

use rules::{MAX_LIST_SIZE, SHEET_SIZE};
use sheets::sizes::buffer_sizes;

// The answer to banks to be drawn, as C reads it: 0 and the number of routines, or the number of a
// refusal and 0.
#[repr(C)]
#[derive(Clone, Copy)]
pub struct Drawing(pub u8, pub u8);

// 0 and the number of routines, with the sheet and the list of two banks drawn into the buffers,
// all of both; or the number of a refusal and 0, with both as they were.
pub fn cesca_draw(opcodes: &[u8], arguments: &[u8], sheet: &mut [u8], list: &mut [u8]) -> Drawing
    ensures { DrawnAs (lent opcodes.now arguments.now sheet.old list.old) (outcome result.0 result.1 sheet.new list.new) }
{
    if let Err(rule) = buffer_sizes(opcodes, arguments, sheet, list) {
        return Drawing(u8::from(rule), 0);
    }
    let mut drawn_sheet = [0u8; SHEET_SIZE];
    let mut drawn_list = [0u8; MAX_LIST_SIZE];
    let drafted = judging::draft(opcodes, arguments, &mut drawn_sheet, &mut drawn_list);
    let Some(n) = judging::admitted(opcodes, arguments, &drawn_sheet, &drawn_list, drafted) else {
        return Drawing(27, 0);
    };
    sheet.copy_from_slice(&drawn_sheet);
    list.copy_from_slice(&drawn_list);
    Drawing(0, n as u8)
}
