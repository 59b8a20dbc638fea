use std::alloc::AllocError;

/// Why a member has no core.
#[derive(Clone, Copy, Debug, PartialEq, Eq)]
pub enum MemberFault {
    /// The typing rules give it none. Its first token stands in this line.
    NotTyped { line: u32 },
    /// Memory ran out.
    OutOfMemory,
}

impl From<AllocError> for MemberFault {
    ghost use Rattle.std.specs.Prelude.{◌≡◌};
    ghost use Rattle.type_check.specs.declared.fault.MemberFault.TheVariants.{OutOfMemory};

    ghost from_gives = { λ _ fault. fault ≡ OutOfMemory };

    fn from(_: AllocError) -> MemberFault {
        MemberFault::OutOfMemory
    }
}
