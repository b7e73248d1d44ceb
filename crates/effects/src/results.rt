// The ALU's results: flags and a register, or the flags alone.
ghost use Rattle.std.specs.Prelude.{◌≡◌};
ghost use Rattle.model.specs.State.{with_flags};
ghost use Rattle.effects.specs.internal.Effects.{effect};

use super::moves::moved;
use super::{Action, Effect, state_only};
use alu::Computed;
use model::State;

// A result of the ALU: the flags alone.
pub fn flagged(s: State, o: Computed, n: u8) -> Effect
    ensures { result ≡ effect (with_flags s o.flags) Action.Nothing n }
{
    let f = o.flags;
    state_only(states::to_flags(s, f), n)
}

// A result of the ALU: the flags and a register.
pub fn computed(s: State, d: u8, o: Computed, n: u8) -> Effect
    ensures { result ≡ effect (with_flags s o.flags) (Action.Register d o.value) n }
{
    let f = o.flags;
    moved(states::to_flags(s, f), d, o.value, n)
}

// The ALU is to be asked, and its result goes to a register.
pub fn computing(s: State, d: u8, f: u8, x: u8, y: u8, n: u8) -> Effect
    ensures { result ≡ effect s (Action.Compute d f x y) n }
{
    Effect {
        state: s,
        action: Action::Compute(d, f, x, y),
        cycles: n,
    }
}

// The ALU is to be asked for its flags alone: no register has the number 4.
pub fn comparing(s: State, f: u8, x: u8, y: u8) -> Effect
    ensures { result ≡ effect s (Action.Compute 4 f x y) 3 }
{
    computing(s, 4, f, x, y, 3)
}
