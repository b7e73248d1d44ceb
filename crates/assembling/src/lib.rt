// A text assembled into two lent banks.
#![tactic(auto)]

ghost use Rattle.std.specs.Prelude.{◌≡◌, length};
ghost use Rattle.spelling.specs.internal.Rows.{table_bytes};
ghost use Rattle.labels.specs.internal.Search.{NewIndex};
ghost use Rattle.assembling.specs.Assemble.{Assembles};
ghost use Rattle.assembling.specs.internal.Looking.{refused, Looked};

use labels::BadLine;
use slices::BANK_SIZE;

// An answer, as C reads it: 0, 0 and the number of words; or the number of a refusal, its line or 0, and 0.
#[repr(C)]
#[derive(Clone, Copy)]
pub struct Assembled(pub u8, pub usize, pub usize);

// Why a text for good banks is refused: the first line that is no instruction or macro; the first that repeats
// a label or uses a missing one; or more than 256 words.
#[derive(Clone, Copy, Debug, PartialEq, Eq)]
enum Refusal {
    BadLine(usize),
    BadLabel(usize),
    TooLong,
}

impl From<BadLine> for Refusal {
    ghost use Rattle.assembling.specs.declared.Refusal.{Refusal};

    ghost from_gives = { λ line r. r ≡ Refusal.BadLine line.number };

    fn from(line: BadLine) -> Refusal {
        Refusal::BadLine(line.number)
    }
}

// A refusal by its number, with its line or 0.
impl From<Refusal> for Assembled {
    ghost from_gives = { λ r answer. answer ≡ refused r };

    fn from(refusal: Refusal) -> Assembled {
        match refusal {
            Refusal::BadLine(line) => Assembled(24, line, 0),
            Refusal::BadLabel(line) => Assembled(25, line, 0),
            Refusal::TooLong => Assembled(26, 0, 0),
        }
    }
}

// The words of a text for good banks, or why it is refused. The addresses of its lines and the index of its
// labels go into lent buffers.
fn look(
    table: &[u8],
    text: &[u8],
    addresses: &mut [u8],
    starts: &mut [usize],
    numbers: &mut [usize],
) -> Result<usize, Refusal>
    requires { (table.now ≡ table_bytes) × (length addresses.old ≡ 256) × NewIndex text.now starts.old numbers.old }
    ensures { Looked text.now result addresses.new starts.new numbers.new }
{
    let count = labels::inspect(table, text, addresses)?;
    labels::index(text, starts, numbers);
    if let Some(line) = labels::label_fault(table, text, starts, numbers) {
        return Err(Refusal::BadLabel(line));
    }
    if 256 < count {
        return Err(Refusal::TooLong);
    }
    Ok(count)
}

// A text assembled into both banks, or a refusal that leaves them as they were.
pub fn assemble(text: &[u8], opcodes: &mut [u8], arguments: &mut [u8]) -> Assembled
    ensures { Assembles text.now opcodes.old arguments.old result opcodes.new arguments.new }
{
    if opcodes.len() != BANK_SIZE {
        return Assembled(1, 0, 0);
    }
    if arguments.len() != BANK_SIZE {
        return Assembled(1, 0, 0);
    }
    let n = text.len();
    let mut addresses: [u8; 256] = [0; 256];
    let mut starts: [usize; 4096] = [n; 4096];
    let mut numbers: [usize; 4096] = [0; 4096];
    let table = spelling::table();
    let count = match look(&table, text, &mut addresses, &mut starts, &mut numbers) {
        Ok(count) => count,
        Err(refusal) => return Assembled::from(refusal),
    };
    words::clear(opcodes);
    words::clear(arguments);
    words::store_lines(
        &table, text, &addresses, &starts, &numbers, opcodes, arguments,
    );
    Assembled(0, 0, count)
}
