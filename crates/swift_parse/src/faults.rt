use std::alloc::{AllocError, AllocFailed};

/// Why a list of tokens is no source file.
#[derive(Clone, Copy, Debug, PartialEq, Eq)]
pub enum ParseFault {
    OutOfMemory,
    /// The first closing bracket that does not match the innermost one left to close, else the innermost one that is
    /// left to close at the end, stands in this line.
    Unbalanced { line: u32 },
    /// The first bracket that stands within 64 others stands in this line.
    TooNested { line: u32 },
    /// The first token of the first piece that the grammar does not spell stands in this line.
    NotADeclaration { line: u32 },
}

impl From<AllocError> for ParseFault {
    ghost use Rattle.std.specs.Prelude.{◌≡◌};
    ghost use Rattle.swift_parse.specs.declared.faults.ParseFault.TheVariants.{OutOfMemory};

    ghost from_gives = { λ _ e. e ≡ OutOfMemory };

    fn from(_: AllocError) -> ParseFault {
        ParseFault::OutOfMemory
    }
}

impl<T: Drop> From<AllocFailed<T>> for ParseFault {
    ghost use Rattle.std.specs.Prelude.{◌≡◌};
    ghost use Rattle.swift_parse.specs.declared.faults.ParseFault.TheVariants.{OutOfMemory};

    ghost from_gives = { λ _ e. e ≡ OutOfMemory };

    fn from(_e: AllocFailed<T>) -> ParseFault {
        ParseFault::OutOfMemory
    }
}
