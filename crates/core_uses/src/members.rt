ghost use Rattle.std.specs.Prelude.{◌≡◌, IfOk};
ghost use Rattle.std.specs.List.{flat_map, list_any};
ghost use Rattle.core_uses.specs.Runs.{run_mentions};
ghost use Rattle.swift_core.specs.Uses.{member_calls, member_writes};

use crate::form_mentions::of_member;
use crate::uses::{codes, has_write};
use std::alloc::{AllocError, Global};
use sv_items::Items;
use swift_core::{CodeId, CoreMember, Mention};

/// What a member mentions outside action blocks, in the order of the text.
fn mentions_run(alloc: Global, member: &CoreMember) -> Result<Items<Mention>, AllocError>
    ensures value { IfOk result (λ m. m ≡ run_mentions member.now) }
{
    let mut out = Items::new(alloc);
    of_member(member, &mut out)?;
    Ok(out)
}

/// Whether a member writes a state slot or through a binding outside action blocks: in its own code or in the builder of
/// a preference reader.
#[tactic(auto, using(crate::proofs::MemberRuns::writes_of_all))]
pub fn member_writes(alloc: Global, member: &CoreMember) -> Result<bool, AllocError>
    ensures value { IfOk result (λ b. b ≡ member_writes member.now) }
{
    let mentions = mentions_run(alloc, member)?;
    Ok(has_write(mentions.as_slice()))
}

/// The code that a member runs outside action blocks, in the order of the text.
#[tactic(auto, using(crate::proofs::MemberRuns::calls_of_all))]
pub fn member_calls(alloc: Global, member: &CoreMember) -> Result<Items<CodeId>, AllocError>
    ensures value { IfOk result (λ cs. cs ≡ member_calls member.now) }
{
    let mentions = mentions_run(alloc, member)?;
    codes(alloc, mentions.as_slice())
}
