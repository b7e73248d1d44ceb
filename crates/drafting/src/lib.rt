// The sheet and the list that settled cells give.
// A byte is a place by `as` here: the loops' proofs compute through it, where `usize::from` asks for an
// equation at each turn.
#![tactic(auto)]

ghost use Rattle.std.specs.Prelude.{◌+◌, ◌*◌, ◌≤◌, ◌<◌, ◌≡◌, length, replicate};
ghost use Rattle.slices.specs.Parts.{padded};
ghost use Rattle.slices.specs.Sizes.{bank_size};
ghost use Rattle.rules.specs.Grounds.{sheet_size, max_list_size};
ghost use Rattle.drawings.specs.internal.Cells.{bit};
ghost use Rattle.drawings.specs.internal.Drafts.{is_entry, rank, low_byte, high_byte, sheet_of, list_of};
ghost use Rattle.drafting.specs.internal.Writing.{numbers_of, rank_after, list_after};

// The most routines of a list; a sheet word has six bits for a routine's number.
pub const MAX_ROUTINES: usize = 64;

// The two bytes of an address on the sheet, the low one first.
#[derive(Clone, Copy)]
struct Word(u8, u8);

// Whether an address is the entry of its own routine.
fn is_entry(cells: &[u32], a: u8) -> bool
    ensures { result ≡ is_entry cells.now a }
{
    let w = cells::word_of(cells, a);
    (0 < w) & (cells::unpack(w).entry == a)
}

// One more where an address is an entry.
fn count_entry(cells: &[u32], a: u8, n: usize) -> usize
    requires { n ≤ bank_size }
    ensures { result ≡ rank_after cells.now a n }
{
    if is_entry(cells, a) { n + 1 } else { n }
}

// Each address is given the number that a routine with its entry there has; the number of routines.
pub fn number_routines(cells: &[u32], numbers: &mut [u8]) -> usize
    requires { length numbers.old ≡ bank_size }
    ensures { (result ≡ rank cells.now bank_size) × (result ≤ bank_size) × (numbers.new ≡ numbers_of cells.now) }
{
    let mut routines: usize = 0;
    for a in 0..=255u8 {
        numbers[a as usize] = (routines % MAX_ROUTINES) as u8;
        routines = count_entry(cells, a, routines);
    }
    routines
}

// The high byte of a described address: V's mark and the routine's number.
fn high_byte(mark: bool, number: u8) -> u8
    requires { number < 64 }
    ensures { result ≡ 128 + 64 * bit mark + number }
{
    if mark { 192 + number } else { 128 + number }
}

// The two bytes of an address, 0 where it is not reached.
fn sheet_word(cells: &[u32], numbers: &[u8], a: u8) -> Word
    requires { numbers.now ≡ numbers_of cells.now }
    ensures { result ≡ (low_byte cells.now a, high_byte cells.now a) }
{
    let w = cells::word_of(cells, a);
    if w == 0 {
        return Word(0, 0);
    }
    let c = cells::unpack(w);
    let number = slices::load(numbers, c.entry);
    Word(c.depth, high_byte(c.mark, number))
}

// The sheet of the cells.
pub fn write_sheet(cells: &[u32], numbers: &[u8], out: &mut [u8])
    requires { (length out.old ≡ sheet_size) × (numbers.now ≡ numbers_of cells.now) }
    ensures { out.new ≡ sheet_of cells.now }
{
    for a in 0..=255u8 {
        let w = sheet_word(cells, numbers, a);
        let i = 2 * (a as usize);
        out[i] = w.0;
        out[i + 1] = w.1;
    }
}

// Where an address is an entry, it and its need are put at the routine n of a list; the next routine.
fn write_entry(cells: &[u32], a: u8, n: usize, out: &mut [u8]) -> usize
    requires { n ≤ 64 }
    ensures { (result ≡ rank_after cells.now a n) × (out.new ≡ list_after cells.now a n out.old) }
{
    if is_entry(cells, a) {
        let c = cells::unpack(cells::word_of(cells, a));
        slices::store(out, (2 * n) as u8, a);
        slices::store(out, (2 * n + 1) as u8, c.need);
        return n + 1;
    }
    n
}

// The list of the cells, into a buffer of zeros.
pub fn write_list(cells: &[u32], out: &mut [u8])
    requires { (out.old ≡ replicate max_list_size 0) × (rank cells.now bank_size ≤ 64) }
    ensures { out.new ≡ padded max_list_size (list_of cells.now) }
{
    let mut n: usize = 0;
    for a in 0..=255u8 {
        n = write_entry(cells, a, n, out);
    }
}
