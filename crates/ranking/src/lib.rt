// The executed addresses one behind another, the busiest first.
#![tactic(auto)]

ghost use Rattle.std.specs.Prelude.{◌≡◌, length, get_or};
ghost use Rattle.std.specs.Option.{unwrap_or};
ghost use Rattle.slices.specs.Sizes.{bank_size};
ghost use Rattle.ranking.specs.Busier as order;
ghost use Rattle.ranking.specs.internal.Selection.{none, first_below, leader_of, known};

// The addresses that are ranked. In the scan it stands for no address: with the count 0 every executed one
// precedes it, so that no turn has to ask whether there is a leader yet.
pub const ADDRESSES: usize = 256;

// An address, and how often it executed.
#[derive(Clone, Copy)]
pub struct AddressCount {
    pub address: usize,
    pub count: u32,
}

// How often an address executed; 0 past the counters' end. It gives `get_or` the name of its definition.
pub fn count_at(counters: &[u32], a: usize) -> u32
    ensures { result ≡ get_or counters.now a 0 }
{
    slices::get_or(counters, a, 0)
}

// Whether x comes before y: the larger count first, of equal counts the lower address.
fn precedes(x: AddressCount, y: AddressCount) -> bool
    ensures { result ≡ order.precedes x y }
{
    (y.count < x.count) | ((x.count == y.count) & (x.address < y.address))
}

// The first of the executed addresses behind `last`, or of all where `last` is none: `next`, or the
// best of those before it.
fn leader(last: AddressCount, best: AddressCount, next: AddressCount) -> AddressCount
    ensures { result ≡ leader_of last best next }
{
    let behind = precedes(last, next);
    let ahead = precedes(next, best);
    if ((0 < next.count) & ((last.address == ADDRESSES) | behind)) & ahead {
        return next;
    }
    best
}

// The first executed address behind `last`, or of all where there is no `last`.
pub fn next_after(counters: &[u32], last: Option<usize>) -> Option<usize>
    requires { length counters.now ≡ bank_size }
    ensures { result ≡ known (first_below (order.busier counters.now) (order.is_executed counters.now) (unwrap_or last none) bank_size) }
{
    let address = last.unwrap_or(ADDRESSES);
    let from = AddressCount {
        address,
        count: count_at(counters, address),
    };
    let mut best = AddressCount {
        address: ADDRESSES,
        count: 0,
    };
    for (a, count) in counters.iter().enumerate() {
        let next = AddressCount {
            address: a,
            count: *count,
        };
        best = leader(from, best, next);
    }
    if best.address == ADDRESSES {
        return None;
    }
    Some(best.address)
}
