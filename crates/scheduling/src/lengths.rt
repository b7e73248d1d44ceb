// Where the seats' parts of a buffer begin, and whether their lengths add up to it.
ghost use Rattle.std.specs.Prelude.{◌≡◌, ◌≤◌, ◌<◌, ◌^◌, eqb};
ghost use Rattle.seats.specs.Room.{max_seats, begin_of};

// Where seat i's part begins: behind those of the seats before it.
#[tactic(auto, using(crate::proofs::Sums::begin_is))]
pub fn begin_of(lengths: [usize; 8], i: usize) -> usize
    requires { (i ≤ max_seats) × (begin_of lengths i < 2 ^ 64) }
    ensures { result ≡ begin_of lengths i }
{
    lengths[..i].iter().sum()
}

// Whether the lengths of n seats add up to a total. Each is taken off it, so that no sum overflows.
pub fn adds_up(lengths: [usize; 8], n: usize, total: usize) -> bool
    requires { n ≤ max_seats }
    ensures { result ≡ eqb (begin_of lengths n) total }
{
    let mut left = total;
    for length in &lengths[..n] {
        let Some(rest) = left.checked_sub(*length) else {
            return false;
        };
        left = rest;
    }
    left == 0
}
