ghost use Rattle.std.specs.Prelude.{◌≡◌};
ghost use Rattle.type_base.specs.declared.fault.Fault.TheVariants as fault;

use post_rules::Chained;
use swift_core::{Core, Target};
use type_base::Fault;

/// Lets a value go that has no such member.
pub fn no_value(_value: Core) -> Fault
    ensures value { result ≡ fault.NotTyped }
{
    Fault::NotTyped
}

/// Lets a place go whose value has no such member.
pub fn no_place(_place: Target) -> Fault
    ensures value { result ≡ fault.NotTyped }
{
    Fault::NotTyped
}

/// Lets go what is no place.
pub fn no_chain(so_far: Chained) -> Fault
    ensures value { result ≡ fault.NotTyped }
{
    drop(so_far);
    Fault::NotTyped
}

/// Lets go what has no elements, and the index.
pub fn no_element(so_far: Chained, index: Core) -> Fault
    ensures value { result ≡ fault.NotTyped }
{
    drop(so_far);
    no_value(index)
}
