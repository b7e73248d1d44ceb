// Bytes, texts and decimal numbers written from a place on. What has no room is dropped.
#![tactic(auto)]

pub mod columns;

ghost use Rattle.std.specs.Prelude.{◌≡◌};
ghost use Rattle.pages.specs.Text.{digit, DecimalWritten};
ghost use Rattle.pages.specs.Page.{page, put_of, write_of};

// A byte is put at a place, where there is room; the place after it.
pub fn put(out: &mut [u8], at: usize, x: u8) -> usize
    ensures { page out.new result ≡ put_of x (page out.old at) }
{
    if at < out.len() {
        out[at] = x;
        at + 1
    } else {
        at
    }
}

// A text is written from a place on; the place after it.
pub fn write(out: &mut [u8], at: usize, text: &[u8]) -> usize
    ensures { page out.new result ≡ write_of text.now (page out.old at) }
{
    let mut next = at;
    for x in text {
        next = put(out, next, *x);
    }
    next
}

// The last digit of a number, in ASCII.
fn last_digit(n: u32) -> u8
    ensures { result ≡ digit n }
{
    48 + ((n % 10) as u8)
}

// A number is written in decimal from a place on; the place after it.
pub fn write_decimal(out: &mut [u8], at: usize, n: u32) -> usize
    ensures { DecimalWritten n (page out.old at) (page out.new result) }
{
    if n < 10 {
        return put(out, at, last_digit(n));
    }
    let next = write_decimal(out, at, n / 10);
    put(out, next, last_digit(n))
}
