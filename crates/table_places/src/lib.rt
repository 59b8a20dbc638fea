//! Fields, inputs, slots, cases and preference keys stand at their numbers, and one declaration is the app.
#![tactic(auto)]

mod laws;

pub use laws::{
    bodies_stand, cases_are_counted, keys_are_placed, main_is_the_app, places_stand,
    preferences_stand,
};
