//! How views are written, and the typing of the views without content.
#![tactic(auto)]

mod alone;
mod calls;
mod forms;
mod ids;
mod names;
mod simple;

pub use alone::{built_in_alone, builtin_meant, meant_alone, named_use, spaced};
pub use calls::{
    behind_dollar, decorated, holding, is_content, item_local, of_argument, on_kind,
    reader_closure, reading, two_words,
};
pub use forms::{
    Headed, button_bodies, dot_name, each_arguments, each_param, head_of, image_argument,
    tail_body, text_argument, toggle_argument, toggle_arguments,
};
pub use ids::{each_over, id_rule};
pub use names::view_named;
pub use simple::{custom_call, function_call, property_use, simple_call, truth_place};
