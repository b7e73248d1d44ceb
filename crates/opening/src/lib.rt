// The opener of shelf files: a file that was judged whole is read once more and written into the
// four buffers.
#![tactic(auto)]

ghost use Rattle.std.specs.Prelude.{◌≡◌, length};
ghost use Rattle.slices.specs.Sizes.{bank_size};
ghost use Rattle.rules.specs.Grounds.{sheet_size, max_list_size};
ghost use Rattle.rules.specs.Sheet.{listing};
ghost use Rattle.files.specs.Calls.{outcome, opened_of};
ghost use Rattle.files.specs.Faults.{opened_as};
ghost use Rattle.opening.specs.internal.Fills.{Takes, TakesByte, FillsAddresses, FillsBytes};

use checking::judging::judge;
use checking::reading::{Address, read_address, read_byte};
use files::OpeningFault;
use rules::MAX_LIST_SIZE;
use sheets::sizes::buffer_sizes;
use slices::BANK_SIZE;

// The address at a place and the place behind it, where there are more; else a blank one.
fn take_address(file: &[u8], at: usize, more: bool) -> (Address, usize)
    ensures { Takes file.now at more result }
{
    let blank = Address::default();
    if !more {
        return (blank, at);
    }
    read_address(file, at).unwrap_or((blank, at))
}

// The numbers of n addresses at a place are written into both banks and the sheet, and 0 for every later address.
fn fill_addresses(
    file: &[u8],
    at: usize,
    n: usize,
    opcodes: &mut [u8],
    arguments: &mut [u8],
    sheet: &mut [u8],
)
    requires { (length opcodes.old ≡ bank_size) × (length arguments.old ≡ bank_size) × (length sheet.old ≡ sheet_size) }
    ensures { FillsAddresses file.now at n opcodes.new arguments.new sheet.new }
{
    let mut next = at;
    for a in 0..BANK_SIZE {
        let (address, behind) = take_address(file, next, a < n);
        let [low, high] = address.word.to_le_bytes();
        opcodes[a] = address.opcode;
        arguments[a] = address.argument;
        sheet[2 * a] = low;
        sheet[2 * a + 1] = high;
        next = behind;
    }
}

// The byte at a place and the place behind it, where there are more; else 0.
fn take_byte(file: &[u8], at: usize, more: bool) -> (u8, usize)
    ensures { TakesByte file.now at more result }
{
    if !more {
        return (0, at);
    }
    read_byte(file, at).unwrap_or((0, at))
}

// m bytes at a place are written into the list buffer, and 0 behind them.
fn fill_bytes(file: &[u8], at: usize, m: usize, list: &mut [u8])
    requires { length list.old ≡ max_list_size }
    ensures { FillsBytes file.now at m list.new }
{
    let mut next = at;
    for i in 0..MAX_LIST_SIZE {
        let (byte, behind) = take_byte(file, next, i < m);
        list[i] = byte;
        next = behind;
    }
}

// The number of routines of a file that opens, with its listing in the four buffers, all of each;
// or a refusal, with all four as they were.
pub fn open_file(
    file: &[u8],
    opcodes: &mut [u8],
    arguments: &mut [u8],
    sheet: &mut [u8],
    list: &mut [u8],
) -> Result<usize, OpeningFault>
    ensures { outcome (opened_as result) (listing opcodes.new arguments.new sheet.new list.new)
        ≡ opened_of file.now (listing opcodes.old arguments.old sheet.old list.old) }
{
    buffer_sizes(opcodes, arguments, sheet, list)?;
    let contents = judge(file)?;
    fill_addresses(
        file,
        contents.addresses,
        contents.n,
        opcodes,
        arguments,
        sheet,
    );
    fill_bytes(file, contents.list, 2 * contents.routines, list);
    Ok(contents.routines)
}
