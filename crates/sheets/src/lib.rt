// Words of the stack sheet, needs of the routine list, and the lengths of a listing's parts.
#![tactic(auto)]

pub mod grounds;
pub mod sizes;

ghost use Rattle.std.specs.Prelude.{◌+◌, ◌*◌, ◌≡◌, get_or};
ghost use Rattle.sheets.specs.internal.Words.{parts_of, word_of};

use slices::byte_at;

// A sheet word's parts (01, 'The stack sheet'), and whether it is 0. `marked`: V is settled here.
// `depth`: the bytes above the routine's return address.
#[derive(Clone, Copy)]
pub struct Word {
    pub blank: bool,
    pub described: bool,
    pub marked: bool,
    pub routine: u8,
    pub depth: u8,
}

// The parts of a word.
fn parts(n: u16) -> Word
    ensures { result ≡ parts_of n }
{
    Word {
        blank: n == 0,
        described: ((n >> 15) & 1) == 1,
        marked: ((n >> 14) & 1) == 1,
        routine: ((n >> 8) & 63) as u8,
        depth: (n & 255) as u8,
    }
}

// The word at an address.
pub fn word_at(sheet: &[u8], a: u8) -> Word
    ensures { result ≡ word_of sheet.now a }
{
    let i = 2 * usize::from(a);
    let low = u16::from(byte_at(sheet, i));
    let high = u16::from(byte_at(sheet, i + 1));
    parts(low + 256 * high)
}

// The entry of a routine: the address at which it is called.
pub fn entry_of(list: &[u8], routine: u8) -> u8
    ensures { result ≡ get_or list.now (2 * routine) 0 }
{
    byte_at(list, 2 * usize::from(routine))
}

// The need of a routine: the most bytes that it and its callees put above its return address.
pub fn need_of(list: &[u8], routine: u8) -> u8
    ensures { result ≡ get_or list.now (2 * routine + 1) 0 }
{
    byte_at(list, 2 * usize::from(routine) + 1)
}
