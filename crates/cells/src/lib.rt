// The cells of a drawing, one for each address, each a word; and a demand met.
#![tactic(auto)]

ghost use Rattle.std.specs.Prelude.{◌≤◌, ◌<◌, ◌≡◌, [], ◌∷◌, length, get_or};
ghost use Rattle.slices.specs.Sizes.{bank_size};
ghost use Rattle.drawings.specs.internal.Cells.{bit, packed, cell_in, larger, joined, merged, has};
ghost use Rattle.drawings.specs.internal.Demands.{demand, entry_cell};
ghost use Rattle.drawings.specs.internal.Visits.{Meets};

use drawings::Cell;

// The bit that every reached address has set in its word. Alone it is the word of address 0 at the
// beginning: the entry of its own routine, with no need yet.
pub const REACHED: u32 = 33554432;

// The word of an address; 0 if it is not reached. It gives `get_or` the name that a drawing knows it by.
pub fn word_of(cells: &[u32], a: u8) -> u32
    ensures { result ≡ get_or cells.now a 0 }
{
    slices::get_or(cells, usize::from(a), 0)
}

// The cell in a word.
pub fn unpack(w: u32) -> Cell
    ensures { result ≡ cell_in w }
{
    Cell {
        entry: ((w >> 16) & 255) as u8,
        depth: ((w >> 8) & 255) as u8,
        mark: ((w >> 24) & 1) == 1,
        need: (w & 255) as u8,
    }
}

// The word of a cell.
fn pack(c: Cell) -> u32
    ensures { result ≡ packed c }
{
    let numbers = u32::from(c.need) + 256 * u32::from(c.depth) + 65536 * u32::from(c.entry);
    numbers + 16777216 * u32::from(c.mark) + REACHED
}

// The cell of an entry with this need.
pub fn entry_cell(entry: u8, need: u8) -> Cell
    ensures { result ≡ entry_cell entry need }
{
    Cell {
        entry,
        depth: 0,
        mark: false,
        need,
    }
}

// A reached cell after another was asked of it: the larger need, and no mark that may not stand.
fn join(c: Cell, want: Cell) -> Cell
    ensures { result ≡ joined c want }
{
    Cell {
        mark: c.mark & want.mark,
        need: c.need.max(want.need),
        ..c
    }
}

// A word after a cell was asked of it.
fn merge(w: u32, want: Cell) -> u32
    ensures { result ≡ merged w want }
{
    if 0 < w {
        pack(join(unpack(w), want))
    } else {
        pack(want)
    }
}

// Whether a word has what is asked of it.
fn satisfies(w: u32, want: Cell) -> bool
    ensures { (result ≡ has w want) × (want.need < 256) }
{
    let c = unpack(w);
    (0 < w) & ((!c.mark | want.mark) & (want.need <= c.need))
}

// A demand is met; whether it was open.
pub fn meet(cells: &mut [u32], at: u8, want: Cell) -> bool
    requires { length cells.old ≡ bank_size }
    ensures { Meets cells.old cells.new (demand at want ∷ []) result }
{
    let w = word_of(cells, at);
    if satisfies(w, want) {
        return false;
    }
    cells[usize::from(at)] = merge(w, want);
    true
}
