//! Terminals of expressions, how their trees are made, types and patterns.
#![tactic(auto)]

mod patterns;
#[cfg(test)]
mod tests;
mod trees;
mod types;
mod words;

pub use patterns::pattern;
pub use trees::{
    expr_node, limit, stmt_node, with_branches, with_front, with_links, with_marks, with_parts,
    with_prefixes,
};
pub use types::{one_type, type_name};
pub use words::{
    MAX_LINKS, assign, binder, force, is_param, jump, literal, op, open_tail, param, prefix,
    sees_assign, sees_binder, sees_force, sees_jump, sees_literal, sees_op, sees_param,
    sees_prefix, sees_tail, selector,
};
