//! The words of the command line, and the form that they make.
#![tactic(auto)]

ghost use Rattle.std.specs.Prelude.{◌≡◌, IfOk, map, option_map, string_bytes};
ghost use Rattle.app_words.specs.Forms.{FormOf, InLimits, form_value};
ghost use Rattle.app_words.specs.Laws.{ReadsNames};

mod command;
mod form;
mod given;
mod number;

use clap::error::ErrorKind;
use command::matches_from;
use form::form_from;
pub use form::{Form, Listings};
use given::given_in;
use std::alloc::{AllocError as OutOfMemory, Global};

fn read_form<'a>(alloc: Global, words: &'a [String]) -> Result<Option<Form<'a>>, OutOfMemory>
    ensures form { IfOk result (λ form. option_map form_value form ≡ FormOf (map string_bytes words.entry.now)) }
    ensures limits { IfOk result (λ form. InLimits (option_map form_value form)) }
{
    match matches_from(alloc, words) {
        Ok(matches) => Ok(form_from(&given_in(&matches))),
        Err(error) => {
            if error.kind() == ErrorKind::OutOfMemory {
                Err(OutOfMemory)
            } else {
                Ok(None)
            }
        }
    }
}

/// The form that the words make, or none.
pub fn form_of<'a>(alloc: Global, words: &'a [String]) -> Result<Option<Form<'a>>, OutOfMemory>
    ensures form { IfOk result (λ form. option_map form_value form ≡ FormOf (map string_bytes words.entry.now)) }
    ensures names { IfOk result (λ form. ReadsNames (map string_bytes words.entry.now) (option_map form_value form)) }
    ensures limits { IfOk result (λ form. InLimits (option_map form_value form)) }
{
    read_form(alloc, words)
}

#[cfg(test)]
mod tests;
