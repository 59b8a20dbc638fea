ghost use Rattle.std.specs.Prelude.{◌≡◌};
ghost use Rattle.type_base.specs.declared.fault.Fault.TheVariants as fault;

use post_rules::Chained;
use swift_core::Core;
use type_base::Fault;

/// Lets go what the chain is so far, where it cannot go on.
pub fn no_chain(so_far: Chained) -> Fault
    ensures value { result ≡ fault.NotTyped }
{
    drop(so_far);
    Fault::NotTyped
}

/// Lets a value go that is no statement.
pub fn no_value(_value: Core) -> Fault
    ensures value { result ≡ fault.NotTyped }
{
    Fault::NotTyped
}
