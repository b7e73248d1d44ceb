// The bytes and the three numbers of an address, read from a place on.
ghost use Rattle.std.specs.Prelude.{drop};
ghost use Rattle.groups.specs.Fields.{field_in, numbers_in};
ghost use Rattle.groups.specs.internal.Places.{read_by, place_of, ReadsAs};
ghost use Rattle.files.specs.File.{byte_field, address_fields};
ghost use Rattle.checking.specs.internal.Judges.{address_by};

use groups::{Refusal, read_field};

// The most of an opcode, an argument, an entry or a need.
pub const MAX_BYTE: u32 = 255;

// The most of a sheet word.
const MAX_WORD: u32 = 65535;

// The byte at a place and the place behind its number, judged for 30 and then for its field.
pub fn read_byte(file: &[u8], at: usize) -> Result<(u8, usize), Refusal>
    ensures { ReadsAs file.now at (field_in byte_field (drop at file.now)) (read_by file.now result) (place_of result) }
{
    let (value, next) = read_field(file, at, 0, MAX_BYTE)?;
    Ok((value as u8, next))
}

// What the file holds of an address.
#[derive(Clone, Copy, Default, PartialEq, Eq)]
pub struct Address {
    pub opcode: u8,
    pub argument: u8,
    pub word: u16,
}

// The address at a place and the place behind its numbers, each judged for 30 and then for its
// field.
pub fn read_address(file: &[u8], at: usize) -> Result<(Address, usize), Refusal>
    ensures { ReadsAs file.now at (numbers_in (address_fields 1) (drop at file.now)) (address_by file.now result) (place_of result) }
{
    let (opcode, after_opcode) = read_byte(file, at)?;
    let (argument, after_argument) = read_byte(file, after_opcode)?;
    let (word, next) = read_field(file, after_argument, 0, MAX_WORD)?;
    let address = Address {
        opcode,
        argument,
        word: word as u16,
    };
    Ok((address, next))
}
