use std::alloc::AllocError;

/// Why a source file is no program. The first kind that holds of it is named, at the first place in text order.
#[derive(Clone, Copy, Debug, PartialEq, Eq)]
pub enum Refusal {
    /// Neither a token nor a separator begins at this line and column.
    Lex { line: u32, col: u32 },
    /// A bracket without its partner stands in this line.
    Unbalanced { line: u32 },
    /// A bracket that stands within 64 others stands in this line.
    TooNested { line: u32 },
    /// A piece of the file that the grammar does not spell begins in this line.
    NotADeclaration { line: u32 },
    /// A name, a member or a key that was declared before, or a second `@main`, is declared in this line.
    Twice { line: u32 },
    /// A data struct that holds itself, or whose type is too deep, begins in this line.
    Recursive { line: u32 },
    /// A member that the typing rules give no core begins in this line, or a declaration that does not fit its kind.
    NotTyped { line: u32 },
    /// A builder or a computed property that writes outside action blocks begins in this line.
    WritesInBody { line: u32 },
    /// No declaration carries `@main`.
    NoMain,
    /// Memory ran out.
    OutOfMemory,
}

impl From<AllocError> for Refusal {
    ghost use Rattle.std.specs.Prelude.{◌≡◌};
    ghost use Rattle.verdict_rules.specs.declared.refusal.Refusal.TheVariants.{OutOfMemory};

    ghost from_gives = { λ _ e. e ≡ OutOfMemory };

    fn from(_: AllocError) -> Refusal {
        Refusal::OutOfMemory
    }
}
