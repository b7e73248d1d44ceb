// The text of an instruction, written by the table of spellings.
#![tactic(auto)]

ghost use Rattle.std.specs.Prelude.{◌≡◌};
ghost use Rattle.pages.specs.Page.{page, write_of};
ghost use Rattle.spelling.specs.internal.Rows.{table_bytes};
ghost use Rattle.spelling.specs.Spellings.{pattern_of, row_with};
ghost use Rattle.printing.specs.Print.{register, shown_at, filled, text_of, Prints};

use isa::Instr;
use numbers::Fields;

// The room for a text.
pub const TEXT_WIDTH: usize = 23;

// The answer to an instruction to be printed, as C reads it: 0, the text's length, and the text with spaces
// behind it; or the number of the refusal, 0 and spaces.
#[repr(C)]
#[derive(Clone, Copy)]
pub struct Printed(pub u8, pub u8, pub [u8; 23]);

// A register is written from a place on; the place after it.
fn write_register(out: &mut [u8], at: usize, r: u8) -> usize
    ensures { page out.new result ≡ write_of (register r) (page out.old at) }
{
    let next = pages::put(out, at, b'R');
    pages::write_decimal(out, next, u32::from(r))
}

// What stands for a byte of a spelling is written from a place on; the place after it.
fn write_shown(out: &mut [u8], at: usize, x: Fields, c: u8) -> usize
    ensures { page out.new result ≡ write_of (shown_at x c) (page out.old at) }
{
    if c == b'X' {
        return write_register(out, at, x.1);
    }
    if c == b'Y' {
        return write_register(out, at, x.2);
    }
    if c == b'Z' {
        return write_register(out, at, x.4);
    }
    if (c == b'#') | (c == b'@') {
        return pages::write_decimal(out, at, u32::from(x.5));
    }
    pages::put(out, at, c)
}

// The row of a form's spelling.
fn row(form: u8, f: u8) -> usize
    ensures { result ≡ row_with form f }
{
    if form == 0 {
        return usize::from(f);
    }
    if form == 1 {
        return 16;
    }
    if form == 2 {
        return 17 + usize::from(f);
    }
    30 + usize::from(form)
}

// The spelling in row k is written from a place on, filled with an instruction's fields; the place after it.
fn write_filled(out: &mut [u8], at: usize, k: usize, x: Fields, table: &[u8]) -> usize
    requires { table.now ≡ table_bytes }
    ensures { page out.new result ≡ write_of (filled (pattern_of k) x) (page out.old at) }
{
    let mut next = at;
    for j in 0..spelling::ROW_WIDTH {
        let c = spelling::pattern(table, k, j);
        if c == b'.' {
            return next;
        }
        next = write_shown(out, next, x, c);
    }
    next
}

// The text of an instruction is written from a place on, by the table of spellings; the place after it.
pub fn write_text(out: &mut [u8], at: usize, instr: Instr, table: &[u8]) -> usize
    requires { table.now ≡ table_bytes }
    ensures { page out.new result ≡ write_of (text_of instr) (page out.old at) }
{
    let x = Fields::from(instr);
    write_filled(out, at, row(x.0, x.3), x, table)
}

// An instruction printed, or its refusal, which is the encoder's.
pub fn print(instr: Instr) -> Printed
    ensures { Prints instr result }
{
    let mut text: [u8; 23] = [b' '; 23];
    let number = encoding::number(encoding::encode(instr));
    if number != 0 {
        return Printed(number, 0, text);
    }
    let table = spelling::table();
    let length = write_text(&mut text, 0, instr, &table);
    Printed(0, length as u8, text)
}
