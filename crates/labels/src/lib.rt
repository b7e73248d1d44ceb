// The lines of a text, how many words they stand for, and the labels that they give and use.
#![tactic(auto)]

ghost use Rattle.std.specs.Prelude.{◌≡◌, false, not, eqb, length, take, drop, take_while, ◌+◌, ◌-◌, ◌≤◌, ◌<◌, min};
ghost use Rattle.spelling.specs.internal.Rows.{table_bytes};
ghost use Rattle.labels.specs.Lines.{lines_of, label_size, label_of, line_of, size_of};
ghost use Rattle.labels.specs.Labels.{same, given_at, repeats, misses};
ghost use Rattle.labels.specs.internal.Search.{unless_zero, cut_of, bad_label, more, slots, hash_of, starts_after, numbers_after, Index, Inspected, WordsOf, NewIndex, IsLine};

use reading::Fit;

// How many hashes there are by which labels are looked up.
pub const SLOTS: usize = 4096;

// The line of a text that is no instruction or macro, the first if there are more.
#[derive(Clone, Copy, Debug, PartialEq, Eq)]
pub struct BadLine {
    pub number: usize,
}

// The letters of a line's label.
fn label_size(line: &[u8]) -> Option<usize>
    ensures { result ≡ unless_zero (label_size line.now) }
{
    let n = spelling::word_size(line, 0, true);
    if 12 < n {
        return None;
    }
    if (1 <= n)
        & (n <= 12)
        & (slices::byte_at(line, n) == b':')
        & (slices::byte_at(line, n + 1) == b' ')
    {
        return Some(n);
    }
    None
}

// The row that a line fits behind its label.
pub fn read_line(table: &[u8], line: &[u8]) -> Option<Fit>
    requires { table.now ≡ table_bytes }
    ensures { result ≡ line_of line.now }
{
    match label_size(line) {
        Some(n) => reading::find_row(table, line, n + 2),
        None => reading::find_row(table, line, 0),
    }
}

// The words of a row of the table.
pub fn row_size(k: usize) -> usize
    requires { k < 90 }
    ensures { WordsOf k result }
{
    if k < spelling::FIRST_PAIR {
        return 1;
    }
    if k < spelling::FIRST_TRIPLE {
        return 2;
    }
    3
}

// The words of a line that is an instruction or macro.
fn line_size(table: &[u8], line: &[u8]) -> Option<usize>
    requires { table.now ≡ table_bytes }
    ensures { (result ≡ unless_zero (size_of line.now)) × (size_of line.now ≤ 3) }
{
    match read_line(table, line) {
        Some(fit) => Some(row_size(fit.row)),
        None => None,
    }
}

// How many bytes stand before the first line feed.
fn front_line_size(text: &[u8]) -> usize
    ensures { result ≡ length (take_while (λ c. not (eqb c 10)) text.now) }
{
    text.iter().take_while(|c| **c != b'\n').count()
}

// The place of the next line feed, or the end.
pub fn line_end(text: &[u8], at: usize) -> usize
    requires { at ≤ length text.now }
    ensures { (result ≡ at + cut_of (drop at text.now)) × (result ≤ length text.now) }
{
    at + front_line_size(&text[at..])
}

// The start of the line after the one that ends at a place.
pub fn next_line(end: usize, n: usize) -> usize
    requires { end ≤ n }
    ensures { (result ≡ min (end + 1) n) × (result ≤ n) }
{
    if end < n { end + 1 } else { n }
}

// A line of a text: its number, the place where it starts, and its bytes without the line feed.
#[derive(Clone, Copy)]
pub struct Line<'a> {
    pub number: usize,
    pub start: usize,
    pub bytes: &'a [u8],
}

// The lines of a text from a place on, where the line of a number starts.
#[derive(Drop)]
pub struct Lines<'a> {
    pub text: &'a [u8],
    pub at: usize,
    pub number: usize,
}

impl<'a> Lines<'a> {
    // All lines of a text, which count from 1.
    pub fn of(text: &'a [u8]) -> Lines<'a>
        ensures { (result.text.now ≡ text.now) × (result.at ≡ 0) × (result.number ≡ 1) }
    {
        Lines {
            text,
            at: 0,
            number: 1,
        }
    }
}

impl<'a> Iterator for Lines<'a> {
    ghost use Rattle.std.specs.Iterator.{at_most};
    ghost use Rattle.labels.specs.internal.Turns.{InText, GivesLine};

    type Item = Line<'a>;

    ghost can_next = { λ s. InText s };

    ghost next_gives = { GivesLine };

    ghost remaining = { λ s. at_most (length s.text.now - s.at) };

    fn next(&mut self) -> Option<Line<'a>> {
        let n = self.text.len();
        if n <= self.at {
            return None;
        }
        let start = self.at;
        let end = line_end(self.text, start);
        let number = self.number;
        self.at = next_line(end, n);
        self.number = number + 1;
        Some(Line {
            number,
            start,
            bytes: &self.text[start..end],
        })
    }
}

// A count that stops above 256.
fn count_on(n: usize, size: usize) -> usize
    requires { size ≤ 3 }
    ensures { result ≡ more n size }
{
    if 256 < n {
        return n;
    }
    n + size
}

// The words of all lines, counting stops above 256; or the first line that is no instruction or macro. The
// words before each of the first 256 lines go into a lent buffer.
pub fn inspect(table: &[u8], text: &[u8], addresses: &mut [u8]) -> Result<usize, BadLine>
    requires { (table.now ≡ table_bytes) × (length addresses.old ≡ 256) }
    ensures { Inspected text.now result addresses.new }
{
    let mut words: usize = 0;
    for line in Lines::of(text) {
        let Some(size) = line_size(table, line.bytes) else {
            return Err(BadLine {
                number: line.number,
            });
        };
        slices::set(addresses, line.number - 1, (words % 256) as u8);
        words = count_on(words, size);
    }
    Ok(words)
}

// The hash by which a name is looked up.
fn hash(name: &[u8]) -> usize
    ensures { (result ≡ hash_of name.now) × (result < slots) }
{
    let mut h: usize = 0;
    for c in name {
        h = (33 * h + usize::from(*c)) % SLOTS;
    }
    h
}

// Whether a line gives a name as its label. Most lines that don't have no colon where the name would end, or
// another letter before it.
fn gives(line: &[u8], name: &[u8]) -> bool
    requires { 0 < length name.now }
    ensures { result ≡ same (label_of line.now) name.now }
{
    let n = name.len();
    if slices::byte_at(line, n) != b':' {
        return false;
    }
    if slices::byte_at(line, n - 1) != name[n - 1] {
        return false;
    }
    match label_size(line) {
        Some(size) => slices::part(line, 0, size) == name,
        None => false,
    }
}

// A labelled line's place and line number are put where its label is looked up, unless an earlier line's
// stand there.
fn enter(line: &[u8], at: usize, k: usize, starts: &mut [usize], numbers: &mut [usize])
    requires { (length starts.old ≡ slots) × (length numbers.old ≡ slots) }
    ensures { (starts.new ≡ starts_after line.now at numbers.old starts.old) × (numbers.new ≡ numbers_after line.now k numbers.old) }
{
    let Some(size) = label_size(line) else {
        return;
    };
    let h = hash(slices::part(line, 0, size));
    if numbers[h] != 0 {
        return;
    }
    starts[h] = at;
    numbers[h] = k;
}

// For each hash the first line that gives a name of that hash goes into two lent buffers: its place and its
// line number.
pub fn index(text: &[u8], starts: &mut [usize], numbers: &mut [usize])
    requires { NewIndex text.now starts.old numbers.old }
    ensures { Index text.now starts.new numbers.new }
{
    for line in Lines::of(text) {
        enter(line.bytes, line.start, line.number, starts, numbers);
    }
}

// A number out of the index as a line's: lines count from 1, and 0 stands there for none.
fn line_number(k: usize) -> Option<usize>
    ensures { result ≡ unless_zero k }
{
    if k == 0 { None } else { Some(k) }
}

// The first line that gives a name.
pub fn given_at(text: &[u8], name: &[u8], starts: &[usize], numbers: &[usize]) -> Option<usize>
    requires { (0 < length name.now) × Index text.now starts.now numbers.now }
    ensures { result ≡ unless_zero (given_at name.now (lines_of text.now) 1) }
{
    let h = hash(name);
    let left = Lines {
        text,
        at: starts[h],
        number: numbers[h],
    };
    for line in left {
        if gives(line.bytes, name) {
            return line_number(line.number);
        }
    }
    None
}

// Whether line k repeats a label that a line before it gives.
fn is_repeat(text: &[u8], line: &[u8], k: usize, starts: &[usize], numbers: &[usize]) -> bool
    requires { Index text.now starts.now numbers.now × IsLine text.now k line.now }
    ensures { result ≡ repeats (take (k - 1) (lines_of text.now)) line.now }
{
    let Some(size) = label_size(line) else {
        return false;
    };
    match given_at(text, slices::part(line, 0, size), starts, numbers) {
        Some(first) => first != k,
        None => false,
    }
}

// Whether a line uses a label that no line gives.
fn is_missing(table: &[u8], text: &[u8], line: &[u8], starts: &[usize], numbers: &[usize]) -> bool
    requires { (table.now ≡ table_bytes) × Index text.now starts.now numbers.now }
    ensures { result ≡ misses (lines_of text.now) line.now }
{
    let Some(fit) = read_line(table, line) else {
        return false;
    };
    let name = slices::part(line, fit.places.from, fit.places.size);
    if name.len() == 0 {
        return false;
    }
    given_at(text, name, starts, numbers).is_none()
}

// The first line that repeats a label or uses a missing one.
pub fn label_fault(table: &[u8], text: &[u8], starts: &[usize], numbers: &[usize]) -> Option<usize>
    requires { (table.now ≡ table_bytes) × Index text.now starts.now numbers.now }
    ensures { result ≡ unless_zero (bad_label text.now) }
{
    for line in Lines::of(text) {
        if is_repeat(text, line.bytes, line.number, starts, numbers)
            | is_missing(table, text, line.bytes, starts, numbers)
        {
            return Some(line.number);
        }
    }
    None
}
