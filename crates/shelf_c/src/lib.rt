// The exports for shelf files, as C calls them.
#![tactic(auto)]

ghost use Rattle.rules.specs.Sheet.{listing};
ghost use Rattle.shelf.specs.Exported.{ShelvedAs, OpenedAs};

use shelf::{OpenedNumbers, ShelvedNumbers};

// 0 and the length of a listing's file, which stands in front of what the buffer held; or the
// number of a refusal and 0, with the buffer as it was.
#[unsafe(no_mangle)]
pub extern "C" fn cesca_shelve(
    opcodes: &[u8],
    arguments: &[u8],
    sheet: &[u8],
    list: &[u8],
    out: &mut [u8],
) -> ShelvedNumbers
    ensures { ShelvedAs (listing opcodes.now arguments.now sheet.now list.now) out.old result out.new }
{
    shelf::cesca_shelve(opcodes, arguments, sheet, list, out)
}

// 0 and the number of routines of a file that opens, with its listing in the four buffers, all of
// each; or the number of a refusal and its place in the file, with all four as they were.
#[unsafe(no_mangle)]
pub extern "C" fn cesca_open(
    file: &[u8],
    opcodes: &mut [u8],
    arguments: &mut [u8],
    sheet: &mut [u8],
    list: &mut [u8],
) -> OpenedNumbers
    ensures { OpenedAs file.now (listing opcodes.old arguments.old sheet.old list.old) result (listing opcodes.new arguments.new sheet.new list.new) }
{
    shelf::cesca_open(file, opcodes, arguments, sheet, list)
}
