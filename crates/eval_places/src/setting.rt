use core_means::Frame;
use std::alloc::Global;
use swift_core::Program;

/// What does not change in a run.
#[derive(Clone, Copy)]
pub struct Setting<'p, L> {
    pub alloc: Global,
    pub program: &'p Program,
    pub frame: &'p Frame,
    /// The cells that a body looks at.
    pub held: &'p L,
    /// Whether an action block runs. It sees and writes the cells that are lent for writing, and notes no reads.
    pub is_block: bool,
}
