// 003's spellings of its instructions and macros in one table, and what a word of a line can be.
#![tactic(auto)]

ghost use Rattle.std.specs.Prelude.{◌≡◌, length, get_or, drop, ◌+◌, ◌≤◌, take_while};
ghost use Rattle.spelling.specs.Spellings.{pattern_of};
ghost use Rattle.spelling.specs.Words.{in_word, word_length, digit_of, decimal_of, numeral_of, operand_of};
ghost use Rattle.spelling.specs.internal.Numbers.{if_below, register_of};
ghost use Rattle.spelling.specs.internal.Rows.{table_bytes};

// What a word of a line is.
#[derive(Clone, Copy)]
pub enum Operand {
    Register(u8),
    Number(u8),
    Name,
    Other,
}

// What stands in the places of a spelling: Rd, Ra, Rb, the number and the address; where the address is a
// label's name, the place and length of the name in the line.
#[derive(Clone, Copy)]
pub struct Places {
    pub d: u8,
    pub a: u8,
    pub b: u8,
    pub imm: u8,
    pub addr: u8,
    pub from: usize,
    pub size: usize,
}

// The rows of the table.
pub const ROW_COUNT: usize = 90;

// The first row of a macro, of one that stands for two words, and of one that stands for three.
pub const FIRST_MACRO: usize = 70;

pub const FIRST_PAIR: usize = 81;

pub const FIRST_TRIPLE: usize = 86;

// The longest spelling.
pub const ROW_WIDTH: usize = 16;

// The spellings: 003's rows in its order, then its macros by their number of words; with dots up to 16. X, Y and Z stand for Rd, Ra and Rb, # for Imm8 and @ for
// Addr8.
const ROWS: [u8; 1440] = *b"\
    mov X, Z........\
    add X, Y, Z.....\
    sub X, Y, Z.....\
    addc X, Y, Z....\
    subb X, Y, Z....\
    and X, Y, Z.....\
    or X, Y, Z......\
    not X, Y........\
    xor X, Y, Z.....\
    nand X, Y, Z....\
    nor X, Y, Z.....\
    xnor X, Y, Z....\
    sll X, Y........\
    srl X, Y........\
    sra X, Y........\
    rol X, Y........\
    add X, Y, #.....\
    mov NONE, Z.....\
    add NONE, Y, Z..\
    sub NONE, Y, Z..\
    addc NONE, Y, Z.\
    subb NONE, Y, Z.\
    and NONE, Y, Z..\
    or NONE, Y, Z...\
    not NONE, Y.....\
    xor NONE, Y, Z..\
    nand NONE, Y, Z.\
    nor NONE, Y, Z..\
    xnor NONE, Y, Z.\
    sll NONE, Y.....\
    srl NONE, Y.....\
    sra NONE, Y.....\
    rol NONE, Y.....\
    cmp Y, #........\
    mask Y, #.......\
    mask IN, #......\
    mov X, #........\
    mov X, IN.......\
    mov IN, Ack.....\
    mov [@], Y......\
    mov [Z], Y......\
    push Y..........\
    mov X, [@]......\
    mov X, [Y]......\
    pop X...........\
    swap X, Y.......\
    jmp @...........\
    jmp Y...........\
    call @..........\
    ret.............\
    jz @............\
    jnz @...........\
    jc @............\
    jnc @...........\
    jv @............\
    jnv @...........\
    jlz @...........\
    jp @............\
    jgz @...........\
    jleu @..........\
    jlt @...........\
    jle @...........\
    mov LCDcmd, #...\
    mov LCD, #......\
    mov LCD, Y......\
    mov LCD, [@]....\
    mov OUT, Y......\
    mov OUT, [@]....\
    hlt.............\
    nop.............\
    cmp Y, Z........\
    mask Y, Z.......\
    test Y..........\
    inc Y...........\
    dec Y...........\
    sllc X, Y.......\
    swap Y..........\
    mov LCDcmd, Clr.\
    jeq @...........\
    jne @...........\
    jltu @..........\
    jgtu Y, Z, @....\
    jgeu Y, Z, @....\
    jgeu Y, #, @....\
    jgt Y, Z, @.....\
    jge Y, Z, @.....\
    jgtu Y, #, @....\
    jgt Y, #, @.....\
    jge Y, #, @.....\
    mov LCDcmd, Init";

// The table, for those who read it often: they have it made once.
pub fn table() -> [u8; 1440]
    ensures { result ≡ table_bytes }
{
    ROWS
}

// Byte j of the spelling in row k, a dot past its end.
pub fn pattern(table: &[u8], k: usize, j: usize) -> u8
    requires { table.now ≡ table_bytes }
    ensures { result ≡ get_or (pattern_of k) j 46 }
{
    if ROW_COUNT <= k {
        return b'.';
    }
    if ROW_WIDTH <= j {
        return b'.';
    }
    table[ROW_WIDTH * k + j]
}

// Whether a byte is a letter, or, unless only letters are wanted, a figure.
fn in_word(only: bool, c: u8) -> bool
    ensures { result ≡ in_word only c }
{
    ((65 <= c) & (c <= 90)) | ((97 <= c) & (c <= 122)) | (!only & ((48 <= c) & (c <= 57)))
}

// How many bytes the word at the front of a text has.
fn front_size(text: &[u8], only: bool) -> usize
    ensures { result ≡ length (take_while (in_word only) text.now) }
{
    text.iter().take_while(|c| in_word(only, **c)).count()
}

// How many bytes the word at a place of a line has.
pub fn word_size(line: &[u8], at: usize, only: bool) -> usize
    requires { at ≤ length line.now }
    ensures { (result ≡ word_length only (drop at line.now)) × (at + result ≤ length line.now) }
{
    front_size(&line[at..], only)
}

// The value of a hexadecimal digit.
fn digit(c: u8) -> Option<u8>
    ensures { result ≡ if_below 16 (digit_of c) }
{
    match c {
        b'0'..=b'9' => Some(c - b'0'),
        b'A'..=b'F' => Some(c - b'A' + 10),
        b'a'..=b'f' => Some(c - b'a' + 10),
        _ => None,
    }
}

// The decimal number of three digits, if they are digits and it is a byte.
fn decimal(h: u8, t: u8, u: u8) -> Option<u8>
    ensures { result ≡ if_below 256 (decimal_of h t u) }
{
    let v = 100 * u16::from(h) + 10 * u16::from(t) + u16::from(u);
    if (9 < h) | (9 < t) | (9 < u) | (255 < v) {
        return None;
    }
    Some(v as u8)
}

// The number that a word of n bytes is.
fn number(n: usize, b0: u8, b1: u8, b2: u8, b3: u8) -> Option<u8>
    ensures { result ≡ if_below 256 (numeral_of n b0 b1 b2 b3) }
{
    if n == 1 {
        return decimal(0, 0, digit(b0)?);
    }
    if (n == 2) & !(b0 == b'0') {
        return decimal(0, digit(b0)?, digit(b1)?);
    }
    if (n == 3) & !(b0 == b'0') {
        return decimal(digit(b0)?, digit(b1)?, digit(b2)?);
    }
    if (n == 4) & (b0 == b'0') & (b1 == b'x') {
        return Some(16 * digit(b2)? + digit(b3)?);
    }
    None
}

// The register that a word of n bytes is.
fn register(n: usize, b0: u8, b1: u8) -> Option<u8>
    ensures { result ≡ register_of n b0 b1 }
{
    let d = digit(b1)?;
    if (n == 2) & (b0 == b'R') & (d < 4) {
        return Some(d);
    }
    None
}

// What a word is.
pub fn classify(word: &[u8]) -> Operand
    ensures { result ≡ operand_of word.now }
{
    let n = word.len();
    let b0 = slices::byte_at(word, 0);
    let b1 = slices::byte_at(word, 1);
    if let Some(r) = register(n, b0, b1) {
        return Operand::Register(r);
    }
    if let Some(v) = number(
        n,
        b0,
        b1,
        slices::byte_at(word, 2),
        slices::byte_at(word, 3),
    ) {
        return Operand::Number(v);
    }
    let m = word_size(word, 0, true);
    if (n == m) & (1 <= n) & (n <= 12) {
        return Operand::Name;
    }
    Operand::Other
}
