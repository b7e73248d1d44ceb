// Total reads and writes of lent bytes.
#![tactic(auto)]

ghost use Rattle.std.specs.Prelude.{◌≡◌, get_or, set};
ghost use Rattle.slices.specs.Parts.{part_of};

// The bytes of a bank.
pub const BANK_SIZE: usize = 256;

// The element at a place, or a default past the end.
pub fn get_or<T: Copy>(s: &[T], at: usize, default: T) -> T
    ensures { result ≡ get_or s.now at default }
{
    s.get(at).copied().unwrap_or(default)
}

// An element is put at a place; past the end nothing changes.
pub fn set<T: Copy>(s: &mut [T], at: usize, x: T)
    ensures { s.new ≡ set s.old at x }
{
    if at < s.len() {
        s[at] = x;
    }
}

// The byte at a place, 0 past the end: bytes are what most callers read, and 0 is what they take there.
pub fn byte_at(s: &[u8], at: usize) -> u8
    ensures { result ≡ get_or s.now at 0 }
{
    get_or(s, at, 0)
}

// The n bytes from a place on, or as many of them as there are.
pub fn part(s: &[u8], at: usize, n: usize) -> &[u8]
    ensures { result.now ≡ part_of s.now at n }
{
    let rest = &s[at.min(s.len())..];
    &rest[..n.min(rest.len())]
}

// The byte at a place that a byte numbers, as an address or a register; 0 past the end.
pub fn load(bank: &[u8], a: u8) -> u8
    ensures { result ≡ get_or bank.now a 0 }
{
    byte_at(bank, usize::from(a))
}

// A byte is put at an address; past the bank's end nothing changes.
pub fn store(bank: &mut [u8], a: u8, v: u8)
    ensures { bank.new ≡ set bank.old a v }
{
    set(bank, usize::from(a), v);
}
