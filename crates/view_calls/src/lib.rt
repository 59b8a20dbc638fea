//! The typing of the views with content, and of the modifiers behind a view.
#![tactic(auto)]

mod blocks;
mod modifiers;
mod views;

pub use blocks::content;
pub use modifiers::modified;
pub use views::named_call;
