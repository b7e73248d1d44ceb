// The desk's answer to an input, written as lines of text into a lent buffer: admission, and the run of an
// admitted listing.
#![tactic(auto)]

ghost use Rattle.std.specs.Prelude.{◌≡◌, ◌≤◌, length, take};
ghost use Rattle.report.specs.Answered.{Answered};
ghost use Rattle.report.specs.Desk.{input_size, ran_of, ran_line, ran_text, desk_text, answer_room};
ghost use Rattle.lines.specs.Lines.{run_room};
ghost use Rattle.pages.specs.Page.{page, Written};

use lines::{admitted_line, refused_line, run_line};
use model::{Ran, Refusal, State};
use rules::SHEET_SIZE;
use slices::{BANK_SIZE, byte_at, part};

// The most bytes that the desk reads: two banks, a sheet, a list of 128 bytes, and one more, by
// which a list that is too long is told.
pub const INPUT_SIZE: usize = 1153;

// Room for any answer: 25 bytes for the first line, 74 for the second.
pub const ANSWER_ROOM: usize = 99;

// Where the sheet begins in an input.
const SHEET_AT: usize = 2 * BANK_SIZE;

// Where the list begins.
const LIST_AT: usize = SHEET_AT + SHEET_SIZE;

// The bytes that are left for the list.
const LIST_ROOM: usize = INPUT_SIZE - LIST_AT;

// The words of the desk's roll: one for each step of the budget, so that it is never full.
const ROLL_SIZE: usize = 1000;

// The steps that the desk lets a program make.
const BUDGET: u32 = 1000;

// The line of a run's answer is written from a place on, none of a refusal; the place after it.
fn ran_line(out: &mut [u8], at: usize, answer: Result<Ran, Refusal>, reached: State) -> usize
    ensures { Written run_room (ran_line answer reached) (page out.old at) (page out.new result) }
{
    match answer {
        Err(_) => at,
        Ok(r) => run_line(out, at, r.stop, r.steps, r.cycles, reached.out, reached.sp),
    }
}

// A program is run, and the line of the run is written from a place on; the place after it.
fn run_program(opcodes: &[u8], arguments: &[u8], out: &mut [u8], at: usize) -> usize
    ensures { Written run_room (ran_text (ran_of opcodes.now arguments.now)) (page out.old at) (page out.new result) }
{
    let mut ram = [0u8; BANK_SIZE];
    let mut stack = [0u8; BANK_SIZE];
    let mut roll = [0u16; ROLL_SIZE];
    let report = machine::run(
        opcodes,
        arguments,
        b"",
        &mut ram,
        &mut stack,
        &mut roll,
        BUDGET,
        calls::start_state(),
    );
    let answer = report.answer;
    let reached = report.state;
    ran_line(out, at, answer, reached)
}

// The lines for an input are written from the buffer's beginning; the place after them.
pub fn answer(input: &[u8], out: &mut [u8]) -> usize
    ensures { Answered input.now out.old out.new result }
{
    let opcodes = part(input, 0, BANK_SIZE);
    let arguments = part(input, BANK_SIZE, BANK_SIZE);
    let sheet = part(input, SHEET_AT, SHEET_SIZE);
    let list = part(input, LIST_AT, LIST_ROOM);
    let number = admission::cesca_admit(opcodes, arguments, sheet, list);
    if number != 0 {
        return refused_line(out, 0, number % 256, number / 256);
    }
    let next = admitted_line(out, 0, byte_at(list, 1));
    run_program(opcodes, arguments, out, next)
}

// The same for the first `read` bytes of the buffer that the desk reads into, where there is room
// for any answer.
pub fn answer_read(buffer: &[u8], read: usize, out: &mut [u8]) -> usize
    requires buffer_len { length buffer.now ≡ input_size }
    requires answer_room_in_bounds { answer_room ≤ length out.old }
    ensures answered { Answered (take read buffer.now) out.old out.new result }
    ensures out_after { take result out.new ≡ desk_text (take read buffer.now) }
{
    answer(part(buffer, 0, read), out)
}
