ghost use Rattle.std.specs.Prelude.{◌≡◌, ◌<◌, ◌≤◌, ◌^◌, min, Some, IsSome, IfOk, MatchResult, slice_get};
ghost use Rattle.sv_value.specs.declared.value.Value.{Value};
ghost use Rattle.sv_value.specs.Value.{weight};
ghost use Rattle.sv_value.specs.Hops.{part_at, with_part};

use bindings::get;
use sv_value::{Hops, Missing, Value, Values};

/// The weight of a slot's value before and after a write.
#[derive(Clone, Copy)]
pub struct Weights {
    pub before: u64,
    pub after: u64,
}

/// The value of the slot with this number.
pub fn slot_of(slots: &Values, at: u32) -> &Value
    requires { IsSome (slice_get slots.now at) }
    ensures { slice_get slots.now at ≡ Some result.now }
{
    match slots.as_slice().get(at as usize) {
        Some(value) => value,
        None => unreachable!(),
    }
}

/// What the whole value weighs, and what it would weigh with `new` at the hops, found from the weights of the whole, of
/// the part that is there and of `new`.
pub fn weigh(whole: &Value, hops: &Hops, new: &Value) -> Result<Weights, Missing>
    requires fits { IsSome (part_at hops.now whole.now) }
    requires light { weight whole.now < 2 ^ 64 }
    ensures answer { MatchResult result (λ w. (part : Value) × (part_at hops.now whole.now ≡ Some (Ok part))) (λ missing. part_at hops.now whole.now ≡ Some (Err missing)) }
    ensures before { IfOk result (λ w. w.before ≡ weight whole.now) }
    ensures after { IfOk result (λ w. w.after ≡ min (weight (with_part hops.now new.now whole.now)) 18446744073709551615) }
{
    let old = get(whole, hops)?.weight();
    let before = whole.weight();
    Ok(Weights {
        before,
        after: (before - old).saturating_add(new.weight()),
    })
}
