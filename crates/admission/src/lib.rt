// The admission of listings: banks, stack sheet and routine list against 01's grounds 1 to 16.
#![tactic(auto)]

mod scans;

ghost use Rattle.rules.specs.Sheet.{listing};
ghost use Rattle.admission.specs.Admission.{Admission};

use sheets::grounds::answer;

// 0 for a listing that is admitted, or number + 256 × place of the first ground that it gives.
pub fn cesca_admit(opcodes: &[u8], arguments: &[u8], sheet: &[u8], list: &[u8]) -> u32
    ensures { Admission (listing opcodes.now arguments.now sheet.now list.now) result }
{
    answer(scans::admit(opcodes, arguments, sheet, list))
}
