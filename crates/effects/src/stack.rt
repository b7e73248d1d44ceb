// What goes to the stack and comes from it, with SP.
ghost use Rattle.std.specs.Prelude.{◌≡◌};
ghost use Rattle.model.specs.State.{sp_after_push, sp_after_pop, with_pc, with_sp};
ghost use Rattle.effects.specs.internal.Effects.{effect};

use super::moves::moved;
use super::{Action, Effect, state_only};
use model::State;

// SP minus one, then the byte at SP.
pub fn pushed(s: State, v: u8, n: u8) -> Effect
    ensures { result ≡ effect (with_sp s (sp_after_push s.sp)) (Action.Stack (sp_after_push s.sp) v) n }
{
    let a = states::sp_after_push(s.sp);
    let t = states::to_sp(s, a);
    Effect {
        state: t,
        action: Action::Stack(a, v),
        cycles: n,
    }
}

// The byte v at SP was read; then SP plus one.
pub fn popped(s: State, d: u8, v: u8) -> Effect
    ensures { result ≡ effect (with_sp s (sp_after_pop s.sp)) (Action.Register d v) 4 }
{
    let a = states::sp_after_pop(s.sp);
    moved(states::to_sp(s, a), d, v, 4)
}

// The byte v goes to SP, and the old byte there to a register.
pub fn swapped(s: State, d: u8, old: u8, v: u8) -> Effect
    ensures { result ≡ effect s (Action.Swap d old s.sp v) 5 }
{
    Effect {
        state: s,
        action: Action::Swap(d, old, s.sp, v),
        cycles: 5,
    }
}

// The address after the call is pushed, and PC is the target.
pub fn called(s: State, a: u8) -> Effect
    ensures { result ≡ effect (with_sp (with_pc s a) (sp_after_push s.sp)) (Action.Stack (sp_after_push s.sp) s.pc) 6 }
{
    pushed(states::to_pc(s, a), s.pc, 6)
}

// The byte v at SP was read and is PC; SP plus one.
pub fn returned(s: State, v: u8) -> Effect
    ensures { result ≡ effect (with_pc (with_sp s (sp_after_pop s.sp)) v) Action.Nothing 4 }
{
    let a = states::sp_after_pop(s.sp);
    state_only(states::to_pc(states::to_sp(s, a), v), 4)
}
