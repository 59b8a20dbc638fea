// What goes into an engine, and what it shows and answers.
use std::alloc::AllocError;

/// A program of one counter.
#[derive(Drop)]
pub struct Form {
    /// The first number, below 1,000,000,000.
    pub init: u64,
    /// What a tap on the button adds, below 1,000,000,000.
    pub step: u64,
    /// What stands before the number: up to 40 bytes from the space to `~`, without `"` and `\`.
    pub prefix: Vec<u8>,
    /// What stands on the button, as `prefix`.
    pub label: Vec<u8>,
}

/// Columns and rows.
#[derive(Clone, Copy, Debug, PartialEq, Eq)]
pub struct Size {
    pub w: u32,
    pub h: u32,
}

/// What happens to a running program.
#[derive(Clone, Copy, Debug, PartialEq, Eq)]
pub enum Event {
    /// A tap on the cell in column `x` and row `y`, both from 0.
    Tap { x: u32, y: u32 },
}

/// What a delivery took.
#[derive(Clone, Copy, Debug, PartialEq, Eq)]
pub struct Settled {
    pub rounds: u32,
}

/// Why an engine stopped. It stays so.
#[derive(Clone, Copy, Debug, PartialEq, Eq)]
pub enum Halt {
    /// It had halted before.
    Ended,
    /// It had made as many deliveries as an engine may.
    Spent { deliveries: u64 },
    /// Memory ran out.
    OutOfMemory,
}

impl From<AllocError> for Halt {
    ghost use Rattle.view_engine.specs.declared.form.Halt.TheVariants.{OutOfMemory};
    ghost use Rattle.std.specs.Prelude.{◌≡◌};

    ghost from_gives = { λ _ e. e ≡ OutOfMemory };

    fn from(_: AllocError) -> Self {
        Halt::OutOfMemory
    }
}

/// A frame: a byte for each cell, row after row.
#[derive(Drop)]
pub struct Canvas {
    pub size: Size,
    pub cells: Vec<u8>,
}
