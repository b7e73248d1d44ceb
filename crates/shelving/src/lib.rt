// The writer of shelf files: n, the numbers of n addresses, the number of routines, and entry and
// need of each, one behind another.
#![tactic(auto)]

ghost use Rattle.std.specs.Prelude.{◌≡◌, [], ◌+◌, ◌*◌, ◌<◌, ◌≤◌, length};
ghost use Rattle.groups.specs.Groups.{row_of};
ghost use Rattle.pages.specs.Page.{page, write_of};
ghost use Rattle.rules.specs.Grounds.{max_list_size};
ghost use Rattle.rules.specs.Sheet.{listing, word};
ghost use Rattle.shelving.specs.internal.Lent.{lent};
ghost use Rattle.files.specs.Calls.{written, shelved_of};
ghost use Rattle.files.specs.Faults.{shelved_as};
ghost use Rattle.files.specs.File.{blank, least_of, address_numbers, file_of};

use files::{FILE_ROOM, ShelvingFault};
use groups::put_number;
use sheets::sizes::listing_sizes;
use slices::{BANK_SIZE, byte_at};

// Numbers that are bytes are written from a place on; the place after them.
fn put_bytes(bytes: &[u8], out: &mut [u8], at: usize) -> usize
    ensures { page out.new result ≡ write_of (row_of bytes.now) (page out.old at) }
{
    let mut next = at;
    for byte in bytes {
        next = put_number(out, next, u32::from(*byte));
    }
    next
}

// A listing's parts, as they are lent.
#[derive(Clone, Copy)]
struct Parts<'a> {
    opcodes: &'a [u8],
    arguments: &'a [u8],
    sheet: &'a [u8],
    list: &'a [u8],
}

impl Parts<'_> {
    // The sheet word of an address, as a number; `sheets::word_at` gives its parts.
    #[tactic(auto, unfolding(rules::specs::Sheet::word))]
    fn word_at(&self, a: usize) -> u16
        requires { a < 256 }
        ensures { result ≡ word (lent self.now) a }
    {
        let low = byte_at(self.sheet, 2 * a);
        let high = byte_at(self.sheet, 2 * a + 1);
        u16::from_le_bytes([low, high])
    }

    // Whether opcode, argument and sheet word of an address are 0.
    fn is_blank(&self, a: usize) -> bool
        requires { a < 256 }
        ensures { result ≡ blank (lent self.now) a }
    {
        let opcode = byte_at(self.opcodes, a);
        let argument = byte_at(self.arguments, a);
        let word = self.word_at(a);
        (opcode == 0) & ((argument == 0) & (word == 0))
    }

    // The least n for which every later address is blank.
    fn least(&self) -> usize
        ensures { result ≡ least_of (lent self.now) }
    {
        for a in (0..BANK_SIZE).rev() {
            if !self.is_blank(a) {
                return a + 1;
            }
        }
        0
    }

    // The three numbers of an address are written from a place on; the place after them.
    fn put_address(&self, out: &mut [u8], at: usize, a: usize) -> usize
        requires { a < 256 }
        ensures { page out.new result ≡ write_of (row_of (address_numbers (lent self.now) a 1)) (page out.old at) }
    {
        let opcode = byte_at(self.opcodes, a);
        let argument = byte_at(self.arguments, a);
        let word = self.word_at(a);
        let after_opcode = put_number(out, at, u32::from(opcode));
        let after_argument = put_number(out, after_opcode, u32::from(argument));
        put_number(out, after_argument, u32::from(word))
    }

    // The numbers of the first n addresses are written from a place on; the place after them.
    fn put_addresses(&self, out: &mut [u8], at: usize, n: usize) -> usize
        requires { n ≤ 256 }
        ensures { page out.new result ≡ write_of (row_of (address_numbers (lent self.now) 0 n)) (page out.old at) }
    {
        let mut next = at;
        for a in 0..n {
            next = self.put_address(out, next, a);
        }
        next
    }

    // The file is written from the buffer's beginning; the place after it.
    fn put_file(&self, out: &mut [u8]) -> usize
        requires { length self.now.list.now ≤ max_list_size }
        ensures { page out.new result ≡ write_of (file_of (lent self.now)) (page out.old 0) }
    {
        let n = self.least();
        let after_n = put_number(out, 0, n as u32);
        let after_addresses = self.put_addresses(out, after_n, n);
        let after_count = put_number(out, after_addresses, (self.list.len() / 2) as u32);
        put_bytes(self.list, out, after_count)
    }
}

// The length of the file of a listing, which now stands in the buffer's front; or a refusal, which
// leaves the buffer. Room is asked for the longest file, whatever this one's length.
pub fn shelve(
    opcodes: &[u8],
    arguments: &[u8],
    sheet: &[u8],
    list: &[u8],
    out: &mut [u8],
) -> Result<usize, ShelvingFault>
    ensures { written (shelved_as result) out.new ≡ shelved_of (listing opcodes.now arguments.now sheet.now list.now) out.old }
{
    listing_sizes(opcodes, arguments, sheet, list)?;
    if out.len() < FILE_ROOM {
        return Err(ShelvingFault::NoRoom);
    }
    let parts = Parts {
        opcodes,
        arguments,
        sheet,
        list,
    };
    Ok(parts.put_file(out))
}
