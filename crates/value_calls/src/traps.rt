ghost use Rattle.std.specs.Prelude.{◌≡◌};
ghost use Rattle.value_calls.specs.Traps.{word_of};

use std::alloc::AllocError;

/// Why a run ends at a form. Each kind comes exactly where its text says.
#[derive(Clone, Copy, Debug, PartialEq, Eq)]
pub enum TrapKind {
    /// A result does not fit 64 bits, or `%` has the least number as dividend and -1 as divisor.
    Overflow,
    /// A divisor of `/` or `%` is 0.
    Zero,
    /// An index of a list is out of range, or an element is taken from an empty list.
    Index,
    /// `!` is used on nil.
    Nil,
    /// The lower bound of a range is above the upper one, or a repeat count is negative.
    Range,
    /// More than 1,000,000 units of fuel would be spent in one body, block or fold.
    Fuel,
    /// More than 1,000 forms are entered and not yet left.
    Calls,
    /// A value's weight would pass 65,536 as it is made or written, or that of all cells 4,000,000.
    Weight,
    /// A node of depth 129 is reached.
    Depth,
    /// The counts of the nodes of a tree, or of the description of one body, pass 20,000 together.
    Nodes,
}

impl TrapKind {
    /// The word that is printed for the kind.
    pub fn word(self) -> &'static str
        ensures { result.now ≡ word_of self }
    {
        match self {
            TrapKind::Overflow => "overflow",
            TrapKind::Zero => "zero",
            TrapKind::Index => "index",
            TrapKind::Nil => "nil",
            TrapKind::Range => "range",
            TrapKind::Fuel => "fuel",
            TrapKind::Calls => "calls",
            TrapKind::Weight => "weight",
            TrapKind::Depth => "depth",
            TrapKind::Nodes => "nodes",
        }
    }
}

/// Why a form gave no value: a trap, or a growth of memory that was refused.
#[derive(Clone, Copy, Debug, PartialEq, Eq)]
pub enum Stop {
    Trap(TrapKind),
    OutOfMemory,
}

impl From<AllocError> for Stop {
    ghost use Rattle.std.specs.Prelude.{◌≡◌};
    ghost use Rattle.value_calls.specs.declared.traps.Stop.TheVariants.{OutOfMemory};

    ghost from_gives = { λ _ stop. stop ≡ OutOfMemory };

    fn from(_: AllocError) -> Stop {
        Stop::OutOfMemory
    }
}
