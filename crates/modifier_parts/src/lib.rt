//! What modifiers and views are written with: parts of the syntax by their form, and the names of guides, alignments,
//! edges and modifiers.
#![tactic(auto)]

mod named;
mod parts;

pub use named::{centre, guide_of, last_alignment, modifier_named, take_alignment, take_edges};
pub use parts::{
    body_of, called_at, closure_at, expr_at, implicit_of, indexed, is_plain, key_word, label_is,
    labelled_expr, labelled_value, name_of, name_with, param_word, path_at, plain_expr,
    plain_value, qualified, selector_at, sole_closure, sole_expr, sole_param, sole_statement,
    word_of,
};
