// The lengths of a listing's four parts, and of four buffers that a listing is to be written into.
ghost use Rattle.std.specs.Prelude.{◌≡◌, [], Bool};
ghost use Rattle.rules.specs.Grounds.{length_checks, listing_checks, buffer_checks};
ghost use Rattle.rules.specs.Sheet.{listing};
ghost use Rattle.sheets.specs.Grounds.{length_answer};
ghost use Rattle.slices.specs.Checks.{first_broken};

use super::grounds::Rule;
use rules::{MAX_LIST_SIZE, SHEET_SIZE};
use slices::BANK_SIZE;

// The first of 1 to 3 that is broken, where the list's length is bad or not.
#[tactic(auto, unfolding(slices::specs::Checks::first_broken, crate::specs::Grounds::length_answer))]
fn lengths(opcodes: &[u8], arguments: &[u8], sheet: &[u8], bad_list: bool) -> Result<(), Rule>
    ensures { length_answer result ≡ first_broken (length_checks (listing opcodes.now arguments.now sheet.now []) bad_list) }
{
    if !((opcodes.len() == BANK_SIZE) & (arguments.len() == BANK_SIZE)) {
        return Err(Rule::BankSizes);
    }
    if !(sheet.len() == SHEET_SIZE) {
        return Err(Rule::SheetSize);
    }
    if bad_list {
        Err(Rule::ListSize)
    } else {
        Ok(())
    }
}

// The first of 1 to 3 that a listing breaks.
pub fn listing_sizes(
    opcodes: &[u8],
    arguments: &[u8],
    sheet: &[u8],
    list: &[u8],
) -> Result<(), Rule>
    ensures { length_answer result ≡ first_broken (listing_checks (listing opcodes.now arguments.now sheet.now list.now)) }
{
    let n = list.len();
    let bad = (n % 2 == 1) | ((n == 0) | (MAX_LIST_SIZE < n));
    lengths(opcodes, arguments, sheet, bad)
}

// The first of 1 to 3 that four buffers break; the list's has room for 64 routines.
pub fn buffer_sizes(opcodes: &[u8], arguments: &[u8], sheet: &[u8], list: &[u8]) -> Result<(), Rule>
    ensures { length_answer result ≡ first_broken (buffer_checks (listing opcodes.now arguments.now sheet.now list.now)) }
{
    lengths(opcodes, arguments, sheet, list.len() != MAX_LIST_SIZE)
}
