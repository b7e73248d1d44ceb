// Numbers in seven-bit groups, written into a lent buffer and read from one.
#![tactic(auto)]

ghost use Rattle.std.specs.Prelude.{◌≡◌, ◌+◌, ◌%◌, ◌<◌, ◌≤◌, length, drop};
ghost use Rattle.groups.specs.Faults.{fault_number};
ghost use Rattle.groups.specs.Fields.{field, field_in};
ghost use Rattle.groups.specs.Groups.{groups_of};
ghost use Rattle.groups.specs.internal.Places.{last_of, value_in, EndsAt, read_by, place_of, ReadsAs};
ghost use Rattle.pages.specs.Page.{page, write_of};

// Why bytes are refused.
#[derive(Clone, Copy)]
pub enum FileFault {
    // A number is cut off or isn't in its shortest form.
    Malformed,
    // A number is beyond its field, or more than is allowed.
    OutOfBounds,
}

impl From<FileFault> for u8 {
    ghost from_gives = { λ fault n. n ≡ fault_number fault };

    // A fault's number.
    fn from(fault: FileFault) -> u8 {
        match fault {
            FileFault::Malformed => 30,
            FileFault::OutOfBounds => 31,
        }
    }
}

// What refuses a file, and its place there.
#[derive(Clone, Copy)]
pub struct Refusal {
    pub fault: FileFault,
    pub at: usize,
}

// A number is written from a place on; the place after it.
pub fn put_number(out: &mut [u8], at: usize, n: u32) -> usize
    ensures { page out.new result ≡ write_of (groups_of n) (page out.old at) }
{
    let mut next = at;
    let mut rest = n;
    // No index: how often this goes is known only by what is left of the number.
    while 127 < rest {
        next = pages::put(out, next, 128 + ((rest % 128) as u8));
        rest /= 128;
    }
    pages::put(out, next, rest as u8)
}

// The place of the last group of the number at a place; none where it is cut off.
fn last_group(file: &[u8], at: usize) -> Option<usize>
    ensures { EndsAt file.now at result }
{
    for i in at..file.len() {
        if file[i] < 128 {
            return Some(i);
        }
    }
    None
}

// The lower seven bits of a byte.
fn group(b: u8) -> u32
    ensures { (result ≡ b % 128) × (result < 128) }
{
    u32::from(b % 128)
}

// The number at a place, whose last group is at most two places on.
fn value_at(file: &[u8], at: usize, last: usize) -> u32
    requires { (last ≡ at + last_of (drop at file.now)) × (last < length file.now) × (last ≤ at + 2) }
    ensures { result ≡ value_in (drop at file.now) }
{
    let top = group(file[last]);
    if last == at {
        return top;
    }
    let first = group(file[at]);
    if last == at + 1 {
        return first + 128 * top;
    }
    first + 128 * (group(file[at + 1]) + 128 * top)
}

// The number at a place and the place behind it, judged for 30 and then for its field. No field
// goes beyond three groups, so a longer number in its shortest form exceeds it, however long it is.
pub fn read_field(file: &[u8], at: usize, low: u32, high: u32) -> Result<(u32, usize), Refusal>
    requires { high < 2097152 }
    ensures { ReadsAs file.now at (field_in (field low high) (drop at file.now)) (read_by file.now result) (place_of result) }
{
    let malformed = Refusal {
        fault: FileFault::Malformed,
        at,
    };
    let out_of_bounds = Refusal {
        fault: FileFault::OutOfBounds,
        at,
    };
    let Some(last) = last_group(file, at) else {
        return Err(malformed);
    };
    let before = last - at;
    if (0 < before) & (file[last] == 0) {
        return Err(malformed);
    }
    if 2 < before {
        return Err(out_of_bounds);
    }
    let value = value_at(file, at, last);
    if (value < low) | (high < value) {
        return Err(out_of_bounds);
    }
    Ok((value, last + 1))
}
