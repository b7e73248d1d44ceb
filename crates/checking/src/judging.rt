// A file judged from the front, with nothing written.
ghost use Rattle.std.specs.Prelude.{drop};
ghost use Rattle.groups.specs.internal.Places.{read_by, place_of, ReadsAs};
ghost use Rattle.checking.specs.internal.Judges.{addresses_walk, end_by, end_place, bytes_end, list_walk, Judges};

use super::reading::{Address, read_address, read_byte};
use groups::{FileFault, Refusal, read_field};

// The numbers of n addresses from a place on: whether the last is blank, and the place behind them.
fn judge_addresses(file: &[u8], at: usize, n: usize) -> Result<(bool, usize), Refusal>
    ensures { ReadsAs file.now at (addresses_walk n (drop at file.now)) (read_by file.now result) (place_of result) }
{
    let mut next = at;
    let mut blank = false;
    for _ in 0..n {
        let (address, behind) = read_address(file, next)?;
        next = behind;
        blank = address == Address::default();
    }
    Ok((blank, next))
}

// m numbers that are bytes, from a place on: the place behind them.
fn judge_bytes(file: &[u8], at: usize, m: usize) -> Result<usize, Refusal>
    ensures { ReadsAs file.now at (bytes_end m (drop at file.now)) (end_by file.now result) (end_place result) }
{
    let mut next = at;
    for _ in 0..m {
        let (_, behind) = read_byte(file, next)?;
        next = behind;
    }
    Ok(next)
}

// The number of routines and where their bytes begin; or the first refusal of these numbers, of an
// n that isn't least, since the last address is blank, or of left-over bytes.
fn judge_list(file: &[u8], at: usize, blank: bool) -> Result<(u32, usize), Refusal>
    ensures { ReadsAs file.now at (list_walk file.now blank (drop at file.now)) (read_by file.now result) (place_of result) }
{
    let (count, list) = read_field(file, at, 1, 64)?;
    let left = judge_bytes(file, list, 2 * (count as usize))?;
    let not_least = Refusal {
        fault: FileFault::OutOfBounds,
        at: 0,
    };
    if blank {
        return Err(not_least);
    }
    let bytes_follow = Refusal {
        fault: FileFault::OutOfBounds,
        at: left,
    };
    if left < file.len() {
        return Err(bytes_follow);
    }
    Ok((count, list))
}

// What a file that opens holds: the numbers of n addresses and two bytes of each routine, and the
// places where these begin.
#[derive(Clone, Copy)]
pub struct Contents {
    pub n: usize,
    pub addresses: usize,
    pub routines: usize,
    pub list: usize,
}

// A file, from its first number to its last byte.
pub fn judge(file: &[u8]) -> Result<Contents, Refusal>
    ensures { Judges file.now result }
{
    let (n, addresses) = read_field(file, 0, 0, 256)?;
    let (blank, behind) = judge_addresses(file, addresses, n as usize)?;
    let (routines, list) = judge_list(file, behind, blank)?;
    Ok(Contents {
        n: n as usize,
        addresses,
        routines: routines as usize,
        list,
    })
}
