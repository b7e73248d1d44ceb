// The desk: a listing on standard input, the desk's answer in lines on standard output. Its exit status
// tells of no failure. So where reading fails, what was read before is the input, none of a closed
// standard input; where writing fails, the rest is not written and the desk ends.
#![tactic(auto)]

ghost use Rattle.std.specs.Prelude.{◌≤◌, length};

use report::{ANSWER_ROOM, INPUT_SIZE};
use std::io::{Print, Read};

// Fills the buffer from its start until it is full, the input ends or reading fails; how many bytes
// were read. It is a `while`, since nobody knows how many reads it takes.
fn read_full<R: Read>(input: &mut R, buffer: &mut [u8]) -> usize
    ensures { result ≤ length buffer.new }
{
    let mut read = 0;
    while read < buffer.len() {
        match input.read(&mut buffer[read..]) {
            Ok(0) => break,
            Ok(n) => read += n,
            Err(_) => break,
        }
    }
    read
}

fn main(rt: HostRuntime) {
    let mut input = [0u8; INPUT_SIZE];
    let read = read_full(&mut rt.stdin(), &mut input);
    let mut out = [0u8; ANSWER_ROOM];
    let written = report::answer_read(&input, read, &mut out);
    let _ = rt.stdout().write_all(&out[..written]);
}
