// Conditional jumps. Each has one of four outcomes, which meet in one function: compiled, the eight
// jumps that don't ask for V are then branches, which the CPU foresees. A test in each arm would
// be a choice between two values of PC, for which the next fetch has to wait.
#![tactic(auto)]

ghost use Rattle.std.specs.Prelude.{◌≡◌};
ghost use Rattle.isa.specs.Facts.{class_of};
ghost use Rattle.model.specs.Plan.{value_of};
ghost use Rattle.effects.specs.internal.Effects.{effect};
ghost use Rattle.branches.specs.internal.Branches.{IsBranch, branch_effect_of, Goes, Takes};

use alu::Overflow;
use effects::{Action, Effect, state_only};
use isa::Instr;
use model::State;

// PC stays at the next word or goes to an address: `Next` and `Jump` where V isn't asked,
// `TestedNext` and `TestedJump` where it is.
#[derive(Clone, Copy)]
pub enum BranchOutcome {
    Next,
    TestedNext,
    TestedJump(u8),
    Jump(u8),
}

// A state, and that V was tested.
fn tested(s: State) -> Effect
    ensures { result ≡ effect s Action.TestV 3 }
{
    Effect {
        state: s,
        action: Action::TestV,
        cycles: 3,
    }
}

// The effect of an outcome.
pub fn branch_effect(s: State, c: BranchOutcome) -> Effect
    ensures { result ≡ branch_effect_of s c }
{
    match c {
        BranchOutcome::Next => state_only(s, 3),
        BranchOutcome::Jump(a) => state_only(states::to_pc(s, a), 3),
        BranchOutcome::TestedNext => tested(s),
        BranchOutcome::TestedJump(a) => tested(states::to_pc(s, a)),
    }
}

// To an address, where a condition holds.
fn when(b: bool, a: u8) -> BranchOutcome
    ensures { Goes result Action.Nothing b a }
{
    if b {
        BranchOutcome::Jump(a)
    } else {
        BranchOutcome::Next
    }
}

// To an address, where a condition on V holds.
fn when_tested(b: bool, a: u8) -> BranchOutcome
    ensures { Goes result Action.TestV b a }
{
    if b {
        BranchOutcome::TestedJump(a)
    } else {
        BranchOutcome::TestedNext
    }
}

// V as a bool, false where it is unsettled.
fn value(v: Overflow) -> bool
    ensures { result ≡ value_of v }
{
    match v {
        Overflow::Settled(set) => set,
        Overflow::Unsettled => false,
    }
}

// The outcome of a conditional jump.
pub fn branch_outcome(instr: Instr, s: State) -> BranchOutcome
    requires { IsBranch (class_of instr) }
    ensures { Takes instr s result }
{
    let fl = s.flags;
    let v = fl.v;
    match instr {
        Instr::Jz(i) => when(fl.z, i),
        Instr::Jnz(i) => when(!fl.z, i),
        Instr::Jc(i) => when(fl.c, i),
        Instr::Jnc(i) => when(!fl.c, i),
        Instr::Jv(i) => when_tested(value(v), i),
        Instr::Jnv(i) => when_tested(!value(v), i),
        Instr::Jlz(i) => when(fl.s, i),
        Instr::Jp(i) => when(!fl.s, i),
        Instr::Jgz(i) => when(!fl.s & !fl.z, i),
        Instr::Jleu(i) => when(fl.z | fl.c, i),
        Instr::Jlt(i) => when_tested(value(v) ^ fl.s, i),
        Instr::Jle(i) => when_tested((value(v) ^ fl.s) | fl.z, i),
        _ => BranchOutcome::Next,
    }
}
