ghost use Rattle.std.specs.Prelude.{◌≡◌, IfOk, OnOk, ◌++◌, nat_eq};
ghost use Rattle.std.specs.List.{flat_map, list_any};
ghost use Rattle.swift_core.specs.Mentions.{Mentions, form_mentions};
ghost use Rattle.swift_core.specs.Uses.{locals_used, locals_of, first_uses, with_use, calls_of, code_of, writes_cells, is_write};

use crate::form_mentions::of_form;
use std::alloc::{AllocError, Global};
use sv_items::Items;
use swift_core::{Code, CodeForm, CodeId, Mention};

/// What a piece of code mentions, in the order of the text.
pub fn mentions_of(alloc: Global, form: &CodeForm) -> Result<Items<Mention>, AllocError>
    ensures value { IfOk result (λ m. m ≡ form_mentions form.now) }
{
    let mut out = Items::new(alloc);
    of_form(form, &mut out)?;
    Ok(out)
}

/// The places, below the number of the locals that stand where it is written, of the locals that a piece of code uses,
/// each once, in the order of their first use in the text. `blocks` are those of its member.
pub fn locals_used(
    alloc: Global,
    blocks: &[Code],
    outer: usize,
    form: &CodeForm,
) -> Result<Items<usize>, AllocError>
    ensures value { IfOk result (λ l. l ≡ locals_used blocks.now outer form.now) }
{
    let mentions = mentions_of(alloc, form)?;
    let mut uses = Items::new(alloc);
    for mention in mentions.as_slice() {
        use_mention(blocks, outer, mention, &mut uses)?;
    }
    Ok(uses)
}

/// Adds the locals that a mention uses.
#[tactic(auto, unfolding(swift_core::specs::Uses::first_uses))]
fn use_mention(
    blocks: &[Code],
    outer: usize,
    mention: &Mention,
    uses: &mut Items<usize>,
) -> Result<(), AllocError>
    ensures ok { OnOk result (uses.new ≡ first_uses outer uses.old (locals_of blocks.now mention.now)) }
{
    match mention {
        Mention::Local(at) => use_local(outer, *at, uses),
        Mention::Block(block) => match blocks.get(block.number) {
            Some(code) => use_locals(outer, code.kept.as_slice(), uses),
            None => Ok(()),
        },
        Mention::Code(_) | Mention::Write => Ok(()),
    }
}

/// Adds each of the places that is not there yet.
fn use_locals(outer: usize, places: &[usize], uses: &mut Items<usize>) -> Result<(), AllocError>
    ensures ok { OnOk result (uses.new ≡ first_uses outer uses.old places.now) }
{
    for at in places {
        use_local(outer, *at, uses)?;
    }
    Ok(())
}

/// Adds the place, unless it is there or not below `outer`.
fn use_local(outer: usize, at: usize, uses: &mut Items<usize>) -> Result<(), AllocError>
    ensures ok { OnOk result (uses.new ≡ with_use outer uses.old at) }
{
    if at < outer && !is_used(uses.as_slice(), at) {
        uses.push(at)?;
    }
    Ok(())
}

/// Whether the place is among the others.
#[tactic(auto, using(crate::proofs::UseRuns::any_flipped))]
fn is_used(uses: &[usize], at: usize) -> bool
    ensures value { result ≡ list_any (nat_eq at) uses.now }
{
    uses.contains(&at)
}

/// Whether a piece of code writes a state slot, or through a binding.
pub fn writes_cells(alloc: Global, form: &CodeForm) -> Result<bool, AllocError>
    ensures value { IfOk result (λ b. b ≡ writes_cells form.now) }
{
    let mentions = mentions_of(alloc, form)?;
    Ok(has_write(mentions.as_slice()))
}

/// Whether one of the mentions is a write.
pub fn has_write(mentions: &[Mention]) -> bool
    ensures value { result ≡ list_any is_write mentions.now }
{
    mentions.iter().any(|mention| writes(mention))
}

/// Whether the mention is a write.
fn writes(mention: &Mention) -> bool
    ensures value { result ≡ is_write mention.now }
{
    match mention {
        Mention::Write => true,
        _ => false,
    }
}

/// The code that a piece of code runs, in the order of the text.
pub fn calls_of(alloc: Global, form: &CodeForm) -> Result<Items<CodeId>, AllocError>
    ensures value { IfOk result (λ c. c ≡ calls_of form.now) }
{
    let mentions = mentions_of(alloc, form)?;
    codes(alloc, mentions.as_slice())
}

/// The code among the mentions.
pub fn codes(alloc: Global, mentions: &[Mention]) -> Result<Items<CodeId>, AllocError>
    ensures value { IfOk result (λ c. c ≡ flat_map code_of mentions.now) }
{
    let mut calls = Items::new(alloc);
    for mention in mentions {
        push_code(mention, &mut calls)?;
    }
    Ok(calls)
}

/// Adds the code of a mention, if it is one of code.
fn push_code(mention: &Mention, calls: &mut Items<CodeId>) -> Result<(), AllocError>
    ensures ok { OnOk result (calls.new ≡ calls.old ++ code_of mention.now) }
{
    match mention {
        Mention::Code(code) => calls.push(*code),
        _ => Ok(()),
    }
}
