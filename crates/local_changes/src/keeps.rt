ghost use Rattle.std.specs.Prelude.{◌≡◌, nat_lt, IfOk};
ghost use Rattle.std.specs.List.{list_all};
ghost use Rattle.swift_core.specs.Readers.{form_alters, named_before, reader_keeps};

use crate::items::of_all_items;
use core_uses::mentions_of;
use std::alloc::{AllocError, Global};
use sv_items::Items;
use swift_core::{CodeForm, Mention};

/// The locals that the items of a builder alter, in the order of the text.
fn alters_of(alloc: Global, form: &CodeForm) -> Result<Items<usize>, AllocError>
    ensures value { IfOk result (λ ns. ns ≡ form_alters form.now) }
{
    let mut out = Items::new(alloc);
    match form {
        CodeForm::Builder(items) => {
            of_all_items(items.as_slice(), &mut out)?;
            Ok(out)
        }
        CodeForm::Value(_) | CodeForm::Statements(_) => Ok(out),
    }
}

/// Whether a place is behind this one.
fn is_behind(outer: usize, at: &usize) -> bool
    ensures value { result ≡ nat_lt outer at.now }
{
    outer < *at
}

/// Whether each of the places is behind this one.
fn all_behind(places: &[usize], outer: usize) -> bool
    ensures value { result ≡ list_all (nat_lt outer) places.now }
{
    places.iter().all(|at| is_behind(outer, at))
}

/// Whether a block that is named stands before this one.
fn named_before(number: usize, mention: &Mention) -> bool
    ensures value { result ≡ named_before number mention.now }
{
    match mention {
        Mention::Block(block) => block.number < number,
        _ => true,
    }
}

/// Whether each block that is named stands before this one.
fn all_before(mentions: &[Mention], number: usize) -> bool
    ensures value { result ≡ list_all (named_before number) mentions.now }
{
    mentions.iter().all(|mention| named_before(number, mention))
}

/// Whether the builder of a preference reader alters no local that stands outside it, so many of them, nor the preference
/// behind these, and names only blocks that stand before it, which is the block of this number.
pub fn reader_keeps(
    alloc: Global,
    outer: usize,
    number: usize,
    form: &CodeForm,
) -> Result<bool, AllocError>
    ensures value { IfOk result (λ b. b ≡ reader_keeps outer number form.now) }
{
    let alters = alters_of(alloc, form)?;
    let mentions = mentions_of(alloc, form)?;
    Ok(all_behind(alters.as_slice(), outer) && all_before(mentions.as_slice(), number))
}
