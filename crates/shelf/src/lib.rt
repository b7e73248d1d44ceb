// Shelf files: the functions that a host calls.
#![tactic(auto)]

ghost use Rattle.std.specs.Prelude.{◌≡◌};
ghost use Rattle.files.specs.Faults.{shelved_as, opened_as};
ghost use Rattle.rules.specs.Sheet.{listing};
ghost use Rattle.shelf.specs.Exported.{shelved_numbers, opened_numbers, ShelvedAs, OpenedAs};

use files::{OpeningFault, ShelvingFault};

// The writer's answer: 0 and the file's length, or the number of a refusal and 0.
#[repr(C)]
#[derive(Clone, Copy)]
pub struct ShelvedNumbers(pub u8, pub usize);

// The opener's answer: 0 and the number of routines, or the number of a refusal and its place in
// the file.
#[repr(C)]
#[derive(Clone, Copy)]
pub struct OpenedNumbers(pub u8, pub usize);

impl From<Result<usize, ShelvingFault>> for ShelvedNumbers {
    ghost from_gives = { λ answer numbers. numbers ≡ shelved_numbers (shelved_as answer) };

    // The writer's answer in numbers.
    fn from(answer: Result<usize, ShelvingFault>) -> ShelvedNumbers {
        match answer {
            Ok(n) => ShelvedNumbers(0, n),
            Err(fault) => ShelvedNumbers(u8::from(fault), 0),
        }
    }
}

impl From<Result<usize, OpeningFault>> for OpenedNumbers {
    ghost from_gives = { λ answer numbers. numbers ≡ opened_numbers (opened_as answer) };

    // The opener's answer in numbers.
    fn from(answer: Result<usize, OpeningFault>) -> OpenedNumbers {
        match answer {
            Ok(k) => OpenedNumbers(0, k),
            Err(fault) => OpenedNumbers(u8::from(fault), fault.place()),
        }
    }
}

// 0 and the length of a listing's file, which stands in front of what the buffer held; or the
// number of a refusal and 0, with the buffer as it was.
pub fn cesca_shelve(
    opcodes: &[u8],
    arguments: &[u8],
    sheet: &[u8],
    list: &[u8],
    out: &mut [u8],
) -> ShelvedNumbers
    ensures { ShelvedAs (listing opcodes.now arguments.now sheet.now list.now) out.old result out.new }
{
    ShelvedNumbers::from(shelving::shelve(opcodes, arguments, sheet, list, out))
}

// 0 and the number of routines of a file that opens, with its listing in the four buffers, all of
// each; or the number of a refusal and its place in the file, with all four as they were.
pub fn cesca_open(
    file: &[u8],
    opcodes: &mut [u8],
    arguments: &mut [u8],
    sheet: &mut [u8],
    list: &mut [u8],
) -> OpenedNumbers
    ensures { OpenedAs file.now (listing opcodes.old arguments.old sheet.old list.old) result (listing opcodes.new arguments.new sheet.new list.new) }
{
    OpenedNumbers::from(opening::open_file(file, opcodes, arguments, sheet, list))
}
