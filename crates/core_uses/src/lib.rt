//! What a checked term mentions and uses: locals, code of the program, and writes to cells.
#![tactic(auto)]

mod core_lists;
mod core_mentions;
mod form_mentions;
mod item_mentions;
mod members;
mod stmt_mentions;
mod uses;

pub use members::{member_calls, member_writes};
pub use uses::{calls_of, locals_used, mentions_of, writes_cells};
