// A short table of listings worked out by hand from 003 and 01, run one after another; `stdout` holds what
// the papers say of each. The host's tests have the long one.
#![tactic(auto)]

use alu::{Flags, Overflow};
use calls::start_state;
use model::{Ran, Refusal, State};
use slices::BANK_SIZE;
use std::io;
use std::io::Print;

// Room for the line of a run.
const LINE_ROOM: usize = 74;

// The start state with another PC, SP and R0.
fn state(pc: u8, sp: u8, r0: u8) -> State {
    State {
        regs: [r0, 0, 0, 0],
        pc: pc,
        sp: sp,
        out: 0,
        flags: Flags {
            z: false,
            c: false,
            s: false,
            v: Overflow::Unsettled,
        },
        halted: false,
        position: 0,
    }
}

// A listing's words, opcode and argument by turns, put into the two banks from an address on; 32
// words, those past its end 00.
fn key_in(listing: &[u8], at: u8, opcodes: &mut [u8], arguments: &mut [u8]) {
    for i in 0..32 {
        let a = std::num::wrapping_add_u8(at, i as u8);
        slices::store(opcodes, a, slices::byte_at(listing, 2 * i));
        slices::store(arguments, a, slices::byte_at(listing, 2 * i + 1));
    }
}

// Writes a name and a byte as a number.
fn byte(out: &impl Print, name: &[u8], n: u8) -> io::Result<()> {
    out.write_all(name)?;
    print!(out; "{n}")
}

// Writes the desk's line of a run, or that it was refused.
fn run_line(out: &impl Print, answer: Result<Ran, Refusal>, s: State) -> io::Result<()> {
    match answer {
        Err(_) => { out.write_all(b" refused\n") }
        Ok(r) => {
            let mut line = [0u8; LINE_ROOM];
            let n = lines::run_line(&mut line, 0, r.stop, r.steps, r.cycles, s.out, s.sp);
            out.write_all(b" ")?;
            out.write_all(slices::part(&line, 0, n))
        }
    }
}

// Runs a listing keyed in at an address, with a roll of 4 words, and writes R0 and R3, the stack bytes at
// 254 and 255, and the line of the run. The stack bank is full of 170.
fn worked(
    out: &impl Print,
    name: &[u8],
    listing: &[u8],
    at: u8,
    keys: &[u8],
    budget: u32,
    start: State,
) -> io::Result<()> {
    let mut opcodes = [0u8; BANK_SIZE];
    let mut arguments = [0u8; BANK_SIZE];
    key_in(listing, at, &mut opcodes, &mut arguments);
    let mut ram = [0u8; BANK_SIZE];
    let mut stack = [170u8; BANK_SIZE];
    let mut roll = [0u16; 4];
    let r = machine::run(
        &opcodes, &arguments, keys, &mut ram, &mut stack, &mut roll, budget, start,
    );
    let answer = r.answer;
    let s = r.state;
    let regs = s.regs;
    byte(out, name, regs[0])?;
    byte(out, b", R3 ", regs[3])?;
    byte(out, b", stack ", stack[254])?;
    byte(out, b" ", stack[255])?;
    out.write_all(b":")?;
    run_line(out, answer, s)
}

// Listing A, V, keys and the stack.
fn instructions(out: &impl Print) -> io::Result<()> {
    let listing_a = b"\x30\x05\xA8\x04\xF0\x00\xF8\x00\x5E\x00\x10\x01\x88\x00\xAC\x00";
    worked(
        out,
        b"listing A: R0 ",
        listing_a,
        0,
        b"",
        1000,
        start_state(),
    )?;
    let mask = b"\x10\x00\x28\xF0\xF8\x00";
    worked(
        out,
        b"mask unsettles V: R0 ",
        mask,
        0,
        b"",
        1000,
        state(0, 255, 15),
    )?;
    let keys = b"\x40\x00\x50\x00\x44\x00\x50\x00\x48\x00\x50\x00\xF8\x00";
    worked(
        out,
        b"keys and Ack: R0 ",
        keys,
        0,
        b"\x07\x09",
        1000,
        start_state(),
    )?;
    worked(
        out,
        b"push at SP 0: R0 ",
        b"\x5C\x00\xF8\x00",
        0,
        b"",
        1000,
        state(0, 0, 9),
    )?;
    let swap = b"\x30\x01\x34\x02\x5C\x00\x99\x00\x8C\x00\xF8\x00";
    worked(out, b"swap: R0 ", swap, 0, b"", 1000, start_state())?;
    worked(
        out,
        b"call at 255: R0 ",
        b"\xA8\x00\xF8\x00",
        255,
        b"",
        1000,
        state(255, 255, 0),
    )
}

// Runs that something stops, or refuses.
fn stops(out: &impl Print) -> io::Result<()> {
    let five = b"\xE4\x01\xE4\x02\xE4\x03\xE4\x04\xE4\x05\xF8\x00";
    worked(out, b"full roll: R0 ", five, 0, b"", 1000, start_state())?;
    worked(
        out,
        b"spent budget: R0 ",
        b"\xA0\x00",
        0,
        b"",
        10,
        start_state(),
    )?;
    worked(
        out,
        b"jle with Z set: R0 ",
        b"\x28\x00\xDC\x00",
        0,
        b"",
        9,
        start_state(),
    )?;
    worked(
        out,
        b"budget over 1,000,000: R0 ",
        b"\x40\x00\xF8\x00",
        0,
        b"",
        1000001,
        start_state(),
    )
}

fn main(rt: HostRuntime) -> io::Result<()> {
    instructions(&rt)?;
    stops(&rt)
}
