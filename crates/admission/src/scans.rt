// The stages of admission: lengths, then scans of places, lowest first. In 01's words a ground is a
// rule that a listing breaks, and its place an address or a routine.
ghost use Rattle.std.specs.Prelude.{◌≡◌, ◌≤◌, ℕ, List, cond, ◌+◌, ◌*◌, get_or};
ghost use Rattle.addresses.specs.internal.Parts.{EntriesFit, without_banks};
ghost use Rattle.rules.specs.Grounds.{address_checks};
ghost use Rattle.sheets.specs.internal.Tests.{bad_blank_word, bad_routine_word, bad_entry_word};
ghost use Rattle.sheets.specs.internal.Words.{word_of};
ghost use Rattle.rules.specs.Sheet.{listing, routines};
ghost use Rattle.rules.specs.internal.Scans.{scan_of};
ghost use Rattle.sheets.specs.Grounds.{answer_of};
ghost use Rattle.slices.specs.Checks.{Check, first_broken};
ghost use Rattle.slices.specs.Sizes.{bank_size};
ghost use Rattle.admission.specs.internal.Stages.{Judges, scans_of, stages_of};

use addresses::address_ground;
use sheets::entry_of;
use sheets::grounds::{Ground, Rule, blank_ground, entry_ground, refuse_if, routine_ground};
use sheets::sizes::listing_sizes;
use slices::BANK_SIZE;

// The first broken rule at the lowest of n places where one is.
fn scan<F: Fn(u8) -> Result<(), Ground>>(n: usize, judge: F) -> Result<(), Ground>
    requires few { n ≤ bank_size }
    requires callable { F.IsAlwaysCallable judge }
    ensures { (f : ℕ → List Check) → Judges (F.post judge) f n → answer_of result ≡ scan_of f 0 n }
{
    for place in 0..n {
        judge(place as u8)?;
    }
    Ok(())
}

// The first of 4 to 16 that a listing gives, with its place.
fn scans(opcodes: &[u8], arguments: &[u8], sheet: &[u8], list: &[u8]) -> Result<(), Ground>
    requires { routines (listing opcodes.now arguments.now sheet.now list.now) ≤ bank_size }
    ensures { answer_of result ≡ scans_of (listing opcodes.now arguments.now sheet.now list.now) }
{
    let routines = list.len() / 2;
    scan(
        BANK_SIZE,
        |a|
            ensures { answer_of result ≡ cond (bad_blank_word (word_of sheet.entry.now a)) (4 + 256 * a) 0 }
        { blank_ground(sheet, a) },
    )?;
    scan(
        BANK_SIZE,
        |a|
            ensures { answer_of result ≡ cond (bad_routine_word routines (word_of sheet.entry.now a)) (5 + 256 * a) 0 }
        { routine_ground(sheet, routines, a) },
    )?;
    refuse_if(entry_of(list, 0) != 0, Rule::Start, 0)?;
    scan(
        routines,
        |routine|
            ensures { answer_of result ≡ cond (bad_entry_word routine (word_of sheet.entry.now (get_or list.entry.now (2 * routine) 0))) (7 + 256 * routine) 0 }
        { entry_ground(sheet, list, routine) },
    )?;
    scan(
        BANK_SIZE,
        |a|
            requires { EntriesFit (without_banks sheet.now list.now) }
            ensures { answer_of result ≡ first_broken (address_checks (listing opcodes.entry.now arguments.entry.now sheet.entry.now list.entry.now) a) }
        { address_ground(opcodes, arguments, sheet, list, a) },
    )
}

// The first ground that a listing gives, with its place.
pub fn admit(opcodes: &[u8], arguments: &[u8], sheet: &[u8], list: &[u8]) -> Result<(), Ground>
    ensures { answer_of result ≡ stages_of (listing opcodes.now arguments.now sheet.now list.now) }
{
    listing_sizes(opcodes, arguments, sheet, list)?;
    scans(opcodes, arguments, sheet, list)
}
