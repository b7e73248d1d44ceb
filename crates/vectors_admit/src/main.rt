// 01's "Programs run the rest", put to admission; `stdout` holds what 01 says of each.
#![tactic(auto)]

use rules::SHEET_SIZE;
use slices::{BANK_SIZE, set};
use std::io;
use std::io::Print;

// Writes admission's answer to a listing.
fn print_answer(
    out: &impl Print,
    name: &[u8],
    opcodes: &[u8],
    arguments: &[u8],
    sheet: &[u8],
    list: &[u8],
) -> io::Result<()> {
    let answer = admission::cesca_admit(opcodes, arguments, sheet, list);
    out.write_all(name)?;
    if answer == 0 {
        return out.write_all(b": admitted\n");
    }
    let number = answer % 256;
    let place = answer / 256;
    println!(out; ": {number} at {place}")
}

// Each address is described in routine 0, at a depth that rises from 0.
fn describe(sheet: &mut [u8]) {
    for a in 0..BANK_SIZE {
        set(sheet, 2 * a, a as u8);
        set(sheet, 2 * a + 1, 0x80);
    }
}

// `push R0` at each address and another opcode at 255, with need 255.
fn pushes(out: &impl Print, name: &[u8], last: u8) -> io::Result<()> {
    let mut opcodes = [0x5Cu8; BANK_SIZE];
    let arguments = [0u8; BANK_SIZE];
    let mut sheet = [0u8; SHEET_SIZE];
    describe(&mut sheet);
    set(&mut opcodes, 255, last);
    print_answer(out, name, &opcodes, &arguments, &sheet, &[0, 255])
}

// `push R0`, then `jmp 0`, with need 1.
fn growing_loop(out: &impl Print) -> io::Result<()> {
    let mut opcodes = [0u8; BANK_SIZE];
    let arguments = [0u8; BANK_SIZE];
    let mut sheet = [0u8; SHEET_SIZE];
    set(&mut opcodes, 0, 0x5C);
    set(&mut opcodes, 1, 0xA0);
    set(&mut sheet, 1, 0x80);
    set(&mut sheet, 2, 1);
    set(&mut sheet, 3, 0x80);
    print_answer(
        out,
        b"push, then jmp 0, need 1",
        &opcodes,
        &arguments,
        &sheet,
        &[0, 1],
    )
}

// Admission's answer to routine 0 at 0 that calls itself, with a need.
fn calls_itself(need: u8) -> u32 {
    let mut opcodes = [0u8; BANK_SIZE];
    let arguments = [0u8; BANK_SIZE];
    let mut sheet = [0u8; SHEET_SIZE];
    let mut list = [0u8; 2];
    set(&mut opcodes, 0, 0xA8);
    set(&mut opcodes, 1, 0xF8);
    set(&mut sheet, 1, 0x80);
    set(&mut sheet, 3, 0x80);
    set(&mut list, 1, need);
    admission::cesca_admit(&opcodes, &arguments, &sheet, &list)
}

// The lowest need that is not refused by 15 at 0, if there is one.
fn lowest_need() -> Option<u8> {
    (0..=255).find(|need| calls_itself(*need) != 15)
}

fn main(rt: HostRuntime) -> io::Result<()> {
    pushes(&rt, b"255 pushes, then hlt at 255, need 255", 0xF8)?;
    pushes(&rt, b"a push at 255 instead", 0x5C)?;
    pushes(&rt, b"nop at 255", 0xFC)?;
    growing_loop(&rt)?;
    let needs = lowest_need().map_or(256, usize::from);
    println!(rt; "a routine that calls itself: 15 at 0 for the needs below {needs}")
}
