// The export of admission, as C calls it.
#![tactic(auto)]

ghost use Rattle.rules.specs.Sheet.{listing};
ghost use Rattle.admission.specs.Admission.{Admission};

// 0 for a listing that is admitted, or number + 256 × place of the first ground that it gives.
#[unsafe(no_mangle)]
pub extern "C" fn cesca_admit(opcodes: &[u8], arguments: &[u8], sheet: &[u8], list: &[u8]) -> u32
    ensures { Admission (listing opcodes.now arguments.now sheet.now list.now) result }
{
    admission::cesca_admit(opcodes, arguments, sheet, list)
}
