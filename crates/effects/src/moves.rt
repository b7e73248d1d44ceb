// Bytes moved: to a register, the data bank, the roll or the output register; and the keys' next one.
ghost use Rattle.std.specs.Prelude.{◌≡◌, cond, ◌+◌, ltb, length};
ghost use Rattle.model.specs.State.{with_out, with_position};
ghost use Rattle.effects.specs.internal.Effects.{effect};

use super::{Action, Effect, state_only};
use model::State;

// A byte to a register.
pub fn moved(s: State, d: u8, v: u8, n: u8) -> Effect
    ensures { result ≡ effect s (Action.Register d v) n }
{
    Effect {
        state: s,
        action: Action::Register(d, v),
        cycles: n,
    }
}

// The next key, unless the keys are at their end.
pub fn acknowledged(s: State, keys: &[u8]) -> Effect
    ensures { result ≡ effect (cond (ltb s.position (length keys.now)) (with_position s (s.position + 1)) s) Action.Nothing 3 }
{
    let p = s.position;
    if p < keys.len() {
        state_only(states::to_position(s, p + 1), 3)
    } else {
        state_only(s, 3)
    }
}

// A byte to the data bank.
pub fn stored(s: State, a: u8, v: u8, n: u8) -> Effect
    ensures { result ≡ effect s (Action.Data a v) n }
{
    Effect {
        state: s,
        action: Action::Data(a, v),
        cycles: n,
    }
}

// A word to the roll.
pub fn sent(s: State, w: u16, n: u8) -> Effect
    ensures { result ≡ effect s (Action.Roll w) n }
{
    Effect {
        state: s,
        action: Action::Roll(w),
        cycles: n,
    }
}

// A byte to the output register.
pub fn shown(s: State, v: u8, n: u8) -> Effect
    ensures { result ≡ effect (with_out s v) Action.Nothing n }
{
    state_only(states::to_out(s, v), n)
}
