// The lines that the desk prints: one for a refused listing, two for an admitted one.
#![tactic(auto)]

ghost use Rattle.std.specs.Prelude.{◌+◌, length};
ghost use Rattle.pages.specs.Text.{most_digits};
ghost use Rattle.lines.specs.Lines.{numbered, refused_line, refused_room, admitted_line, admitted_room};
ghost use Rattle.lines.specs.Lines.{stop_word, stop_room, run_line, run_room};
ghost use Rattle.pages.specs.Page.{page, Written};

use model::Stop;
use pages::{put, write, write_decimal};

// A text and then a number are written from a place on; the place after them.
fn write_numbered(out: &mut [u8], at: usize, text: &[u8], n: u32) -> usize
    ensures { Written (length text.now + most_digits) (numbered text.now n) (page out.old at) (page out.new result) }
{
    let next = write(out, at, text);
    write_decimal(out, next, n)
}

// The line of a refused listing is written from a place on; the place after it.
pub fn refused_line(out: &mut [u8], at: usize, number: u32, place: u32) -> usize
    ensures { Written refused_room (refused_line number place) (page out.old at) (page out.new result) }
{
    let after_number = write_numbered(out, at, b"refused ", number);
    let after_place = write_numbered(out, after_number, b" at ", place);
    put(out, after_place, b'\n')
}

// The first line of an admitted listing is written from a place on; the place after it.
pub fn admitted_line(out: &mut [u8], at: usize, need: u8) -> usize
    ensures { Written admitted_room (admitted_line need) (page out.old at) (page out.new result) }
{
    let after_need = write_numbered(out, at, b"admitted need ", u32::from(need));
    put(out, after_need, b'\n')
}

// A stop's word is written from a place on; the place after it.
fn write_stop(out: &mut [u8], at: usize, stop: Stop) -> usize
    ensures { Written stop_room (stop_word stop) (page out.old at) (page out.new result) }
{
    match stop {
        Stop::Halted => write(out, at, b"halted"),
        Stop::Spent => write(out, at, b"spent"),
        Stop::Unsettled => write(out, at, b"unsettled"),
        Stop::Full => write(out, at, b"full"),
    }
}

// The line of an ended run is written from a place on; the place after it.
pub fn run_line(
    out: &mut [u8],
    at: usize,
    stop: Stop,
    steps: u32,
    cycles: u32,
    output: u8,
    sp: u8,
) -> usize
    ensures { Written run_room (run_line stop steps cycles output sp) (page out.old at) (page out.new result) }
{
    let after_stop = write_stop(out, at, stop);
    let after_steps = write_numbered(out, after_stop, b" steps ", steps);
    let after_cycles = write_numbered(out, after_steps, b" cycles ", cycles);
    let after_output = write_numbered(out, after_cycles, b" out ", u32::from(output));
    let after_sp = write_numbered(out, after_output, b" sp ", u32::from(sp));
    put(out, after_sp, b'\n')
}
