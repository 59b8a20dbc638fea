//! Lists put in order by insertion, which is what a sort gives by an order that tells any two elements apart.
#![tactic(auto)]

ghost use Rattle.std.specs.Prelude.{◌≡◌};
ghost use Rattle.in_order.specs.InOrder.{in_order, is_below};

/// Puts numbers in order, the least first.
pub fn put_in_order(numbers: &mut [usize])
    ensures { numbers.new ≡ in_order is_below numbers.old }
{
    numbers.sort_unstable();
}
