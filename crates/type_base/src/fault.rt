use std::alloc::AllocError;

/// Why a part of the source has no core.
#[derive(Clone, Copy, Debug, PartialEq, Eq)]
pub enum Fault {
    /// The typing rules give it none.
    NotTyped,
    /// Memory ran out.
    OutOfMemory,
}

impl From<AllocError> for Fault {
    ghost use Rattle.std.specs.Prelude.{◌≡◌};
    ghost use Rattle.type_base.specs.declared.fault.Fault.TheVariants.{OutOfMemory};

    ghost from_gives = { λ _ fault. fault ≡ OutOfMemory };

    fn from(_: AllocError) -> Fault {
        Fault::OutOfMemory
    }
}
