// What a script holds, and why bytes are none.
ghost use Rattle.std.specs.Prelude.{◌≡◌};
ghost use Rattle.event_script.specs.declared.event.ScriptFault.TheVariants.{OutOfMemory};

use std::alloc::AllocError;

/// An event of a script.
#[derive(Clone, Copy, Debug, PartialEq, Eq)]
pub enum Event {
    /// A tap on the cell in this column and row, which count from 0.
    Tap { x: u32, y: u32 },
}

/// Why bytes gave no list of events.
#[derive(Clone, Copy, Debug, PartialEq, Eq)]
pub enum ScriptFault {
    /// Memory ran out.
    OutOfMemory,
    /// This line, counted from 1, is the first that is neither blank, nor a comment, nor an event.
    NotAnEvent { line: u32 },
    /// Each line is one of these, and there are more than 10,000 events.
    TooMany,
}

impl From<AllocError> for ScriptFault {
    ghost from_gives = { λ _ e. e ≡ OutOfMemory };

    fn from(_: AllocError) -> Self {
        ScriptFault::OutOfMemory
    }
}
