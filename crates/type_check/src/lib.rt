//! The typing of members.
#![tactic(auto)]

mod fault;
mod form;
mod functions;
mod member;
mod properties;
mod shapes;
mod views;

pub use fault::MemberFault;
pub use member::{check_entry, check_member, check_member_at};
