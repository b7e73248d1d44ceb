// A state from its numbers, and states, reports and running times as numbers. `specs/Runs.antt` says what each
// number means.
#![tactic(auto)]

ghost use Rattle.std.specs.Prelude.{◌≡◌};
ghost use Rattle.model.specs.Run.{refusal_number};
ghost use Rattle.run_numbers.specs.Runs.{overflow_of, state_of, state_numbers, stop_number, run_numbers, time_numbers};

use alu::{Flags, Overflow};
use model::{Refusal, Report, State, Stop, TimeError};
use numbers::overflow_number;

// A state: R0 to R3, PC, SP, output register, Z, C, S, V, halted, position.
#[repr(C)]
#[derive(Clone, Copy)]
pub struct StateNumbers(
    pub [u8; 4],
    pub u8,
    pub u8,
    pub u8,
    pub bool,
    pub bool,
    pub bool,
    pub u8,
    pub bool,
    pub usize,
);

// A run's report: number, stop, steps, cycles, roll words, state.
#[repr(C)]
#[derive(Clone, Copy)]
pub struct RunNumbers(
    pub u8,
    pub u8,
    pub u32,
    pub u32,
    pub usize,
    pub StateNumbers,
);

// A running time: number, tenths.
#[repr(C)]
#[derive(Clone, Copy)]
pub struct TimeNumbers(pub u8, pub u32);

// V from its number: no `From`, likewise, in `alu`, which knows nothing of C's numbers.
fn overflow_of(n: u8) -> Overflow
    ensures { result ≡ overflow_of n }
{
    match n {
        0 => Overflow::Settled(false),
        1 => Overflow::Settled(true),
        _ => Overflow::Unsettled,
    }
}

// The state of these numbers.
impl From<StateNumbers> for State {
    ghost from_gives = { λ x s. s ≡ state_of x };

    fn from(x: StateNumbers) -> State {
        let regs = x.0;
        State {
            regs,
            pc: x.1,
            sp: x.2,
            out: x.3,
            flags: Flags {
                z: x.4,
                c: x.5,
                s: x.6,
                v: overflow_of(x.7),
            },
            halted: x.8,
            position: x.9,
        }
    }
}

// The numbers of a state.
impl From<State> for StateNumbers {
    ghost from_gives = { λ s x. x ≡ state_numbers s };

    fn from(s: State) -> StateNumbers {
        let f = s.flags;
        StateNumbers(
            s.regs,
            s.pc,
            s.sp,
            s.out,
            f.z,
            f.c,
            f.s,
            overflow_number(f.v),
            s.halted,
            s.position,
        )
    }
}

// The number of a stop. A `From` would have to stand in `model`, where no function stands.
pub fn stop_number(x: Stop) -> u8
    ensures { result ≡ stop_number x }
{
    match x {
        Stop::Halted => 0,
        Stop::Spent => 1,
        Stop::Unsettled => 2,
        Stop::Full => 3,
    }
}

// 01's number of a refused run: no `From`, likewise.
fn refusal_number(x: Refusal) -> u8
    ensures { result ≡ refusal_number x }
{
    match x {
        Refusal::BadBank => 17,
        Refusal::BadPosition => 18,
        Refusal::BadBudget => 19,
    }
}

// The numbers of a run's report.
impl From<Report> for RunNumbers {
    ghost from_gives = { λ report x. x ≡ run_numbers report.answer report.state };

    fn from(report: Report) -> RunNumbers {
        let state = StateNumbers::from(report.state);
        match report.answer {
            Err(x) => RunNumbers(refusal_number(x), 0, 0, 0, 0, state),
            Ok(r) => RunNumbers(0, stop_number(r.stop), r.steps, r.cycles, r.words, state),
        }
    }
}

// The numbers of a running time.
impl From<Result<u32, TimeError>> for TimeNumbers {
    ghost from_gives = { λ t x. x ≡ time_numbers t };

    fn from(t: Result<u32, TimeError>) -> TimeNumbers {
        match t {
            Ok(n) => TimeNumbers(0, n),
            Err(TimeError::BadClock) => TimeNumbers(20, 0),
            Err(TimeError::BadCycles) => TimeNumbers(21, 0),
        }
    }
}
