// Numbers in columns: decimal ones aligned at the right, and bytes in hexadecimal.
ghost use Rattle.std.specs.Prelude.{◌≡◌, ◌<◌, length};
ghost use Rattle.pages.specs.Columns.{right_aligned, hex_digit, hex_of};
ghost use Rattle.pages.specs.Page.{page, write_of};
ghost use Rattle.pages.specs.Text.{decimal};

use super::{put, write_decimal};

// A hexadecimal digit, in ASCII.
fn hex_digit(n: u8) -> u8
    requires { n < 16 }
    ensures { result ≡ hex_digit n }
{
    if n < 10 { b'0' + n } else { b'A' + (n - 10) }
}

// A byte is written in two hexadecimal digits from a place on; the place after them.
pub fn write_hex(out: &mut [u8], at: usize, x: u8) -> usize
    ensures { page out.new result ≡ write_of (hex_of x) (page out.old at) }
{
    let next = put(out, at, hex_digit(x / 16));
    put(out, next, hex_digit(x % 16))
}

// The digits of a number, counted: a `while`, since what is left of the number alone tells how many.
fn digit_count(n: u32) -> usize
    ensures { result ≡ length (decimal n) }
{
    let mut count: usize = 1;
    let mut rest = n;
    while 10 <= rest {
        rest = rest / 10;
        count += 1;
    }
    count
}

// A number is written at the right of so many columns from a place on; the place after it.
pub fn write_right(out: &mut [u8], at: usize, width: usize, n: u32) -> usize
    ensures { page out.new result ≡ write_of (right_aligned width (decimal n)) (page out.old at) }
{
    let mut next = at;
    for _column in digit_count(n)..width {
        next = put(out, next, b' ');
    }
    write_decimal(out, next, n)
}
