// The export for drawn sheets, as C calls it.
#![tactic(auto)]

ghost use Rattle.drawings.specs.Drawn.{lent, outcome, DrawnAs};

use draw::Drawing;

// 0 and the number of routines, with the sheet and the list of two banks drawn into the buffers,
// all of both; or the number of a refusal and 0, with both as they were.
#[unsafe(no_mangle)]
pub extern "C" fn cesca_draw(
    opcodes: &[u8],
    arguments: &[u8],
    sheet: &mut [u8],
    list: &mut [u8],
) -> Drawing
    ensures { DrawnAs (lent opcodes.now arguments.now sheet.old list.old) (outcome result.0 result.1 sheet.new list.new) }
{
    draw::cesca_draw(opcodes, arguments, sheet, list)
}
