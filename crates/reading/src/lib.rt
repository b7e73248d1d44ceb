// A line read by a spelling, and the row of the table that a line fits.
#![tactic(auto)]

ghost use Rattle.std.specs.Prelude.{◌≡◌, length, ◌≤◌};
ghost use Rattle.spelling.specs.internal.Rows.{table_bytes};
ghost use Rattle.reading.specs.Reading.{is_place, failed, scanned, took_register, took_number, took_name, took_of, literal_of, byte_of, read_of, matched_of};
ghost use Rattle.reading.specs.internal.Rows.{begins_of};

use spelling::{Operand, Places};

// How far a line is read by a spelling.
#[derive(Clone, Copy)]
pub struct Scan {
    pub ok: bool,
    pub at: usize,
    pub places: Places,
}

// The row that a line fits, and what stands in its places.
#[derive(Clone, Copy)]
pub struct Fit {
    pub row: usize,
    pub places: Places,
}

// A scan that doesn't go on.
fn fail(s: Scan) -> Scan
    ensures { result ≡ failed s }
{
    Scan { ok: false, ..s }
}

// A scan that goes on at a place.
fn scanned(at: usize, places: Places) -> Scan
    ensures { result ≡ scanned at places }
{
    Scan {
        ok: true,
        at,
        places,
    }
}

// A register r, up to i, at the place c of a spelling.
fn take_register(c: u8, r: u8, i: usize, s: Scan) -> Scan
    ensures { result ≡ took_register c r i s }
{
    let places = s.places;
    match c {
        b'X' => scanned(i, Places { d: r, ..places }),
        b'Y' => scanned(i, Places { a: r, ..places }),
        b'Z' => scanned(i, Places { b: r, ..places }),
        _ => fail(s),
    }
}

// A number v, up to i, at the place c of a spelling.
fn take_number(c: u8, v: u8, i: usize, s: Scan) -> Scan
    ensures { result ≡ took_number c v i s }
{
    let places = s.places;
    match c {
        b'#' => scanned(i, Places { imm: v, ..places }),
        b'@' => scanned(
            i,
            Places {
                addr: v,
                from: 0,
                size: 0,
                ..places
            },
        ),
        _ => fail(s),
    }
}

// A name, up to i, at the place c of a spelling.
fn take_name(c: u8, i: usize, s: Scan) -> Scan
    requires { s.at ≤ i }
    ensures { result ≡ took_name c i s }
{
    if c != b'@' {
        return fail(s);
    }
    let places = s.places;
    scanned(
        i,
        Places {
            addr: 0,
            from: s.at,
            size: i - s.at,
            ..places
        },
    )
}

// An operand, up to i, at the place c of a spelling.
fn take(o: Operand, c: u8, i: usize, s: Scan) -> Scan
    requires { s.at ≤ i }
    ensures { result ≡ took_of o c i s }
{
    match o {
        Operand::Register(r) => take_register(c, r, i, s),
        Operand::Number(v) => take_number(c, v, i, s),
        Operand::Name => take_name(c, i, s),
        Operand::Other => fail(s),
    }
}

// Whether a byte of a spelling stands for a register, a number or an address.
fn is_place(c: u8) -> bool
    ensures { result ≡ is_place c }
{
    (c == b'X') | (c == b'Y') | (c == b'Z') | (c == b'#') | (c == b'@')
}

// A byte c of a spelling that stands for itself.
fn literal(line: &[u8], c: u8, s: Scan) -> Scan
    ensures { result ≡ literal_of line.now c s }
{
    let at = s.at;
    if line.len() <= at {
        return fail(s);
    }
    if line[at] == c {
        return scanned(at + 1, s.places);
    }
    fail(s)
}

// One byte c of a spelling.
fn scan_byte(line: &[u8], c: u8, s: Scan) -> Scan
    requires { s.at ≤ length line.now }
    ensures { result ≡ byte_of line.now c s }
{
    let ok = s.ok;
    if !ok {
        return s;
    }
    if is_place(c) {
        let at = s.at;
        let n = spelling::word_size(line, at, false);
        let o = spelling::classify(&line[at..at + n]);
        return take(o, c, at + n, s);
    }
    literal(line, c, s)
}

// A line read from a place on by the spelling in row k.
fn scan_row(table: &[u8], line: &[u8], start: usize, k: usize) -> Scan
    requires { (table.now ≡ table_bytes) × (start ≤ length line.now) }
    ensures { result ≡ read_of line.now start k }
{
    let empty = Places {
        d: 0,
        a: 0,
        b: 0,
        imm: 0,
        addr: 0,
        from: 0,
        size: 0,
    };
    let mut s = scanned(start, empty);
    for j in 0..spelling::ROW_WIDTH {
        let ok = s.ok;
        if !ok {
            return s;
        }
        let c = spelling::pattern(table, k, j);
        if c == b'.' {
            return s;
        }
        s = scan_byte(line, c, s);
    }
    s
}

// Whether the spelling in row k begins with three bytes.
fn begins(table: &[u8], k: usize, x: u8, y: u8, z: u8) -> bool
    requires { table.now ≡ table_bytes }
    ensures { result ≡ begins_of k x y z }
{
    spelling::pattern(table, k, 0) == x
        && spelling::pattern(table, k, 1) == y
        && spelling::pattern(table, k, 2) == z
}

// The row that a line fits from a place on. Rows that begin with other bytes are not tried.
pub fn find_row(table: &[u8], line: &[u8], start: usize) -> Option<Fit>
    requires { (table.now ≡ table_bytes) × (start ≤ length line.now) }
    ensures { result ≡ matched_of line.now start 0 90 }
{
    let n = line.len();
    if n - start < 3 {
        return None;
    }
    let x = line[start];
    let y = line[start + 1];
    let z = line[start + 2];
    for row in 0..spelling::ROW_COUNT {
        if !begins(table, row, x, y, z) {
            continue;
        }
        let s = scan_row(table, line, start, row);
        if s.ok & (s.at == n) {
            let places = s.places;
            return Some(Fit { row, places });
        }
    }
    None
}
